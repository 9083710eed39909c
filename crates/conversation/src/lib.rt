// The line protocol as steps: a line of the host leads to the conversation after it, and its answer is written into a lent buffer.
#![tactic(auto)]

ghost use Rattle.std.specs.Prelude.{◌≡◌, ◌∷◌, []};
ghost use Rattle.words.specs.Words.{word_at, place_in};
ghost use Rattle.numerals.specs.Numbers.{count_text};
ghost use Rattle.coverage.specs.Table.{rows_in};
ghost use Rattle.covered_report.specs.Reading.{covered_in};
ghost use Rattle.definition.specs.Session.{says_of, more_of};
ghost use Rattle.editing.specs.Meaning.{state};
ghost use Rattle.demands.specs.Calls.{Call};
ghost use Rattle.demands.specs.Demands.{Meets};
ghost use Rattle.lines.specs.Reading.{form_says, form_if};
ghost use Rattle.report_text.specs.Writer.{Wrote};
ghost use Rattle.report_text.specs.Texts.{bracketed};
ghost use Rattle.answer_text.specs.Answers.{line};
ghost use Rattle.conversation.specs.Conversation as defined;
ghost use Rattle.conversation.specs.Conversation.{said_text, calls, answer_to, next_line, page_answer, initial};
ghost use Rattle.conversation.specs.Tracks.{Tracks, response_text, Responds, Answers, AnswersUnended};

use coverage::Table;
use definition::{Point, Step};
use editing::{Answer, Session};
use lines::{Form, Line};
use report_text::{Text, Writer};
use requests::Request;
use words::Word;

// The section that the request is in: none before (entered ..) and after (open plain). In each a line of a later one may come.
#[derive(Clone, Copy)]
pub enum Section {
    Closed,
    Shots,
    Priors,
    Distances,
}

// The conversation: the lines read, the request with its section, the session, and the coverage table.
#[derive(Clone, Copy)]
pub struct Conversation {
    lines: u64,
    section: Section,
    request: Request,
    session: Session,
    table: Table,
}

// What is written to a line, if anything is: that it is malformed, the count, the page, or the session's answer.
#[derive(Clone, Copy)]
pub enum Response {
    Malformed(u64),
    Asked(u64),
    Page,
    Says(Step),
}

// The number of the next line: it stays at the largest.
fn number_after(lines: u64) -> u64
    ensures { result ≡ more_of lines }
{
    lines.saturating_add(1)
}

impl Conversation {
    // Before the first request there is no session: an empty request is refused.
    pub fn new(table: Table) -> Conversation
        ensures { Tracks result (initial (rows_in table)) }
    {
        let request = Request::new(Point { mv: 0.0, bc: 0.0 });
        let session = request.open().session;
        Conversation {
            lines: 0,
            section: Section::Closed,
            request,
            session,
            table,
        }
    }

    fn next_line(&mut self)
        ensures { (u : defined.Conversation) → Tracks self.old u → Tracks self.new (next_line u) }
    {
        self.lines = number_after(self.lines);
    }

    // The session's answer to a call.
    fn after_call(&mut self, a: Answer) -> Option<Response>
        ensures { (u : defined.Conversation) (x : Call) → Tracks self.old u → Meets x self.old.session a → Responds self.new result (calls u x) }
    {
        self.session = a.session;
        Some(Response::Says(a.step))
    }

    // What a line is answered by, in its number and place.
    fn respond(&mut self, form: Option<Form<'_>>) -> Option<Response>
        ensures { (u : defined.Conversation) → Tracks self.old u → Responds self.new result (answer_to u (form_says form.entry)) }
    {
        match form {
            Some(Form::Entered(entered)) => {
                self.request = Request::new(entered);
                self.section = Section::Shots;
                None
            }
            Some(Form::Shot(shot)) if matches!(self.section, Section::Shots) => {
                self.request.push_shot(shot);
                None
            }
            Some(Form::PriorSpeed(prior)) if matches!(self.section, Section::Shots) => {
                self.request.set_speed_prior(prior);
                self.section = Section::Priors;
                None
            }
            Some(Form::PriorCoefficient(prior))
                if matches!(self.section, Section::Shots | Section::Priors) => {
                self.request.set_coefficient_prior(prior);
                self.section = Section::Distances;
                None
            }
            Some(Form::Distance(distance)) if !matches!(self.section, Section::Closed) => {
                self.request.push_distance(distance);
                self.section = Section::Distances;
                None
            }
            Some(Form::Open) if !matches!(self.section, Section::Closed) => {
                let a = self.request.open();
                self.section = Section::Closed;
                self.session = a.session;
                Some(Response::Says(a.step))
            }
            Some(Form::Drops(entries)) => self.after_call(editing::reply(self.session, entries)),
            Some(Form::Refused) => self.after_call(editing::refuse(self.session)),
            Some(Form::PutIn(place, d)) => self.after_call(editing::put_in(
                self.session,
                place as usize,
                d,
            )),
            Some(Form::TakeOut(place)) => self.after_call(editing::take_out(
                self.session,
                place as usize,
            )),
            Some(Form::Exchange(place, d)) => self.after_call(editing::exchange(
                self.session,
                place as usize,
                d,
            )),
            Some(Form::Asked) => Some(Response::Asked(editing::asked(self.session))),
            Some(Form::Page) => Some(Response::Page),
            _ => Some(Response::Malformed(self.lines)),
        }
    }

    // Takes a line of the host: how many bytes are written for it.
    #[tactic(auto, using(crate::proofs::Responses::same_buffer))]
    pub fn answer(&mut self, line: Option<Line>, out: &mut [u8; 131072]) -> usize
        ensures { Answers self.old line out.old out.new self.new result }
    {
        self.next_line();
        let form = match &line {
            Some(l) => l.form(),
            None => None,
        };
        let response = self.respond(form);
        let mut w = Writer::new(out, 0);
        put_response(&mut w, self.session, response, &self.table);
        w.at()
    }

    // The input has ended in a line without its line feed, which is malformed.
    #[tactic(auto, using(crate::proofs::Responses::same_buffer))]
    pub fn unended(&self, out: &mut [u8; 131072]) -> usize
        ensures { AnswersUnended self.now out.old out.new result }
    {
        let mut w = Writer::new(out, 0);
        put_count(&mut w, Word::Malformed, number_after(self.lines));
        w.at()
    }
}

// ---- writing

// (WORD N), with its line feed.
#[tactic(auto, using(report_text::proofs::Putting::put_put))]
fn put_count(w: &mut Writer<'_>, word: Word, n: u64)
    ensures { Wrote w.old w.new (line (bracketed (word_at (place_in word) ∷ count_text n ∷ []))) }
{
    (word, n).put(w);
    w.put_byte(b'\n');
}

// The session's answer, with its line feed.
#[tactic(auto, using(report_text::proofs::Putting::put_put, crate::proofs::Responses::said_same), unfolding(answer_text::specs::Answers::answer_text))]
fn put_step(w: &mut Writer<'_>, session: Session, step: Step, table: &Table)
    ensures { Wrote w.old w.new (line (said_text (says_of step) (covered_in (rows_in table.now) (state session)))) }
{
    answer_text::write_answer(w, Answer { step, session }, table);
    w.put_byte(b'\n');
}

// How many lines the page of the session has, and these.
#[tactic(auto, using(report_text::proofs::Putting::put_put, crate::proofs::Responses::page_word))]
fn put_page(w: &mut Writer<'_>, session: Session, table: &Table)
    ensures { Wrote w.old w.new (page_answer (covered_in (rows_in table.now) (state session))) }
{
    put_count(w, Word::Page, page::lines(session, table) as u64);
    page::write_page(w, session, table);
}

#[tactic(auto, using(report_text::proofs::Putting::wrote_nothing, crate::proofs::Responses::asked_word, crate::proofs::Responses::malformed_word))]
fn put_response(w: &mut Writer<'_>, session: Session, response: Option<Response>, table: &Table)
    ensures { Wrote w.old w.new (response_text (rows_in table.now) session response) }
{
    match response {
        None => {}
        Some(Response::Malformed(n)) => put_count(w, Word::Malformed, n),
        Some(Response::Asked(n)) => put_count(w, Word::Asked, n),
        Some(Response::Page) => put_page(w, session, table),
        Some(Response::Says(step)) => put_step(w, session, step, table),
    }
}
