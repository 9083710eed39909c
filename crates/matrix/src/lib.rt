// A symmetric matrix of two rows: determinant, sum, inverse with its condition number, and the condition of its columns.
#![tactic(auto)]

ghost use Rattle.std.specs.Prelude.{◌≡◌};
ghost use Rattle.matrix.specs.Matrix.{determinant_of, sum_of, entries_finite, largest_of, says, inverse_of, column_condition_of};

#[derive(Clone, Copy, PartialEq)]
pub struct Symmetric2 {
    pub a00: f64,
    pub a01: f64,
    pub a11: f64,
}

// Why a matrix has no inverse.
#[derive(Clone, Copy, PartialEq, Eq)]
pub enum InverseError {
    NonFiniteInformation,
    RankDeficientInformation,
}

const INFORMATION_RELATIVE_EIGEN_TOLERANCE: f64 = 1.0e-12;

impl Symmetric2 {
    #[tactic(auto, unfolding(crate::specs::Matrix::determinant_of))]
    pub fn determinant(self) -> f64
        ensures { result ≡ determinant_of self }
    {
        self.a00 * self.a11 - self.a01 * self.a01
    }

    #[tactic(auto, unfolding(crate::specs::Matrix::sum_of))]
    pub fn add(self, rhs: Symmetric2) -> Symmetric2
        ensures { result ≡ sum_of self rhs }
    {
        Symmetric2 {
            a00: self.a00 + rhs.a00,
            a01: self.a01 + rhs.a01,
            a11: self.a11 + rhs.a11,
        }
    }

    // The sum, into the matrix that is lent.
    pub fn add_assign(&mut self, rhs: Symmetric2)
        ensures { self.new ≡ sum_of self.old rhs }
    {
        *self = self.add(rhs);
    }

    // Whether each entry is finite.
    #[tactic(auto, unfolding(crate::specs::Matrix::entries_finite))]
    fn is_finite(self) -> bool
        ensures { result ≡ entries_finite self }
    {
        numeric::is_finite(self.a00) & numeric::is_finite(self.a01) & numeric::is_finite(self.a11)
    }

    #[tactic(auto, unfolding(crate::specs::Matrix::largest_of))]
    fn largest_eigenvalue(self) -> f64
        ensures { result ≡ largest_of self }
    {
        let trace = self.a00 + self.a11;
        let discriminant = numeric::hypot(self.a00 - self.a11, 2.0 * self.a01);
        0.5 * (trace + discriminant)
    }

    // The inverse, and its condition number.
    #[tactic(auto, unfolding(crate::specs::Matrix::inverse_of, crate::specs::Matrix::inverse_entries))]
    pub fn inverse_with_condition(self) -> Result<(Symmetric2, f64), InverseError>
        ensures { says result ≡ inverse_of self }
    {
        if !self.is_finite() {
            return Err(InverseError::NonFiniteInformation);
        }
        let largest = self.largest_eigenvalue();
        let determinant = self.determinant();
        let unbounded = !numeric::is_finite(largest) | !numeric::is_finite(determinant);
        if unbounded {
            return Err(InverseError::NonFiniteInformation);
        }
        if (largest <= 0.0) | (determinant <= 0.0) {
            return Err(InverseError::RankDeficientInformation);
        }
        // The product of the two eigenvalues is the determinant.
        let smallest = determinant / largest;
        if !numeric::is_finite(smallest)
            | (smallest <= 0.0)
            | (smallest / largest <= INFORMATION_RELATIVE_EIGEN_TOLERANCE)
        {
            return Err(InverseError::RankDeficientInformation);
        }
        let inverse = Symmetric2 {
            a00: self.a11 / determinant,
            a01: -self.a01 / determinant,
            a11: self.a00 / determinant,
        };
        if !inverse.is_finite() {
            return Err(InverseError::NonFiniteInformation);
        }
        Ok((inverse, largest / smallest))
    }
}

#[tactic(auto, unfolding(crate::specs::Matrix::column_condition_of))]
pub fn column_condition(information: Symmetric2) -> f64
    ensures { result ≡ column_condition_of information }
{
    if (information.a00 <= 0.0) | (information.a11 <= 0.0) {
        return numeric::infinity();
    }
    let scale = root::root(information.a00 * information.a11);
    let correlation = numeric::abs(numeric::clamp(information.a01 / scale, -1.0, 1.0));
    if 1.0 - correlation <= 1.0e-15 {
        return numeric::infinity();
    }
    (1.0 + correlation) / (1.0 - correlation)
}
