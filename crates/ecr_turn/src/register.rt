// The example of this crate, which its tests run: a register over a turnstile. What `enter` and `leave` promise is
// enough for an answer "as at this ticket".
ghost use Rattle.std.specs.Prelude.{◌≡◌, ◌≤◌, ◌+◌, ◌++◌, ◌∷◌, [], List, OnOk, OnErr};
ghost use Rattle.ecr_model.specs.declared.registry.journal.Line.{Line as SpecLine};
ghost use Rattle.ecr_model.specs.registry.Journals.{below};
ghost use Rattle.ecr_model.specs.registry.Growth.{Grows, Follows};
ghost use Rattle.ecr_turn.specs.Passes.{IsSamePass, no_frame};
ghost use Rattle.ecr_turn.specs.Register.{value_of};

use crate::{Journal, Pass, Turnstile};
use ecr_model::{Act, Call, Entry, Line, Listed, Mem, Rare};
use std::alloc::Global;
use std::marker::Model;
use std::sync::Wait;

// A number that is set. Contracts see the journal of its settings.
#[derive(Drop)]
pub(crate) struct Register {
    value: u64,
    lines: Vec<Line>,
}

impl Model for Register {
    ghost use Rattle.std.specs.Prelude.{◌≡◌, List};
    ghost use Rattle.ecr_model.specs.declared.registry.journal.Line.{Line};
    ghost use Rattle.ecr_turn.specs.Register.{value_of};

    ghost Value = { List Line };

    ghost view = { λ r. r.lines.items };

    ghost invariant = { λ r. r.value ≡ value_of r.lines.items };
}

impl Journal for Register {
    ghost lines = { λ r. r };

    ghost frame = { λ _. no_frame };

    fn entries(&self) -> u64 {
        self.lines.len() as u64
    }
}

impl Register {
    // It is 0, and was never set.
    pub(crate) fn new(alloc: Global) -> Register
        ensures empty { result ≡ [] }
    {
        Register {
            value: 0,
            lines: Vec::new(alloc),
        }
    }

    fn value(&self) -> u64
        ensures { result ≡ value_of self.now }
    {
        self.value
    }

    // The line that sets the number: of its act nothing is used.
    fn line(&self, ticket: u64, caller: u64, number: u64) -> Line
        ensures { (result.ticket ≡ ticket) × (result.caller ≡ caller) × (result.entry.moment ≡ number) }
    {
        Line {
            ticket,
            caller,
            entry: Entry {
                moment: number,
                act: Act::Called {
                    call: Call::Describe,
                    destinations: Listed::new(*self.lines.allocator()),
                    sealed: Rare::none(),
                },
            },
        }
    }

    // Sets the number that the line says.
    fn set(&mut self, line: Line) -> Result<(), Mem>
        ensures ok { OnOk result (self.new ≡ self.old ++ line ∷ []) }
        ensures value { OnOk result (value_of self.new ≡ line.entry.moment) }
        ensures err { OnErr result (self.new ≡ self.old) }
    {
        let number = line.entry.moment;
        self.lines.push(line)?;
        self.value = number;
        Ok(())
    }
}

// Answers the number, with the ticket at which it was that. It is the number there in every journal that follows.
pub(crate) fn get<R: Wait>(
    rt: &R,
    turnstile: &Turnstile<Register>,
    pass: Pass<Register>,
) -> (u64, u64, Pass<Register>)
    requires of { pass.gate ≡ turnstile.now }
    ensures pass { IsSamePass pass result.2 }
    ensures fresh { (pass.past ≤ result.1) × (result.2.past ≡ result.1 + 1) }
    ensures grows { Grows pass.caller pass.past pass.seen result.2.seen }
    ensures value { result.0 ≡ value_of (below result.1 result.2.seen) }
    ensures stays { (after : List SpecLine) → Follows result.2.past result.2.seen after
        → result.0 ≡ value_of (below result.1 after) }
{
    let turn = turnstile.enter(rt, pass);
    let ticket = turn.ticket();
    let value = turn.value().value();
    (value, ticket, turn.leave())
}

// Sets the number, where there is memory for the entry.
pub(crate) fn set<R: Wait>(
    rt: &R,
    turnstile: &Turnstile<Register>,
    pass: Pass<Register>,
    number: u64,
) -> (Result<(), Mem>, Pass<Register>)
    requires of { pass.gate ≡ turnstile.now }
    ensures pass { IsSamePass pass result.1 }
    ensures set { OnOk result.0 (value_of result.1.seen ≡ number) }
    ensures err { OnErr result.0 (Grows pass.caller pass.past pass.seen result.1.seen) }
{
    let caller = pass.caller();
    let mut turn = turnstile.enter(rt, pass);
    let ticket = turn.ticket();
    let line = turn.value().line(ticket, caller, number);
    let set = turn.change().set(line);
    (set, turn.leave())
}

// A reader that keeps its pass, which is away only while it is in a turn. Contracts see what the pass knows.
#[derive(Drop)]
pub(crate) struct Reader {
    pass: Option<Pass<Register>>,
}

impl Model for Reader {
    ghost use Rattle.std.specs.Prelude.{IsSome};
    ghost use Rattle.ecr_turn.specs.Passes.{Known, known_in};

    ghost Value = { Known };

    ghost view = { λ r. known_in r.pass };

    ghost invariant = { λ r. IsSome r.pass };
}

impl Reader {
    pub(crate) fn of(pass: Pass<Register>) -> Reader
        ensures pass { result ≡ pass }
    {
        Reader { pass: Some(pass) }
    }

    // The number, with the ticket at which it was that.
    pub(crate) fn get<R: Wait>(&mut self, rt: &R, turnstile: &Turnstile<Register>) -> (u64, u64)
        requires of { self.old.gate ≡ turnstile.now }
        ensures pass { IsSamePass self.old self.new }
        ensures fresh { (self.old.past ≤ result.1) × (self.new.past ≡ result.1 + 1) }
        ensures value { result.0 ≡ value_of (below result.1 self.new.seen) }
    {
        let pass = self.pass.take().unwrap();
        let (value, ticket, pass) = get(rt, turnstile, pass);
        self.pass = Some(pass);
        (value, ticket)
    }
}
