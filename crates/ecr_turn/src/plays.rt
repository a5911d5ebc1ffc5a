// What each step tells the one who makes it.
ghost use Rattle.ecr_turn.specs.Steps.{drew, looked, learned, recorded, passed_on, drew_number, took_in, settled, newborn, joining, spent};

use crate::board::View;
use crate::journal::Journal;
use atomic_table::{Join, Play, Split};
use std::alloc::Global;
use std::marker::PhantomData;

/// A ticket is drawn.
pub struct Draw;

impl<S> Play<Option<Box<S, Global>>, View> for Draw {
    ghost then = { drew };
}

/// The number that is served is looked at.
pub struct Look<S> {
    state: PhantomData<S>,
}

impl<S: Journal> Play<Option<Box<S, Global>>, View> for Look<S> {
    ghost then = { looked (λ b. S.lines b.value) (λ b. S.frame b.value) };
}

/// The journal of the state that was found is looked at.
pub struct Learn;

impl<S> Play<Option<Box<S, Global>>, View> for Learn {
    ghost then = { learned };
}

/// An entry is counted.
pub struct Record<S> {
    state: PhantomData<S>,
}

impl<S: Journal> Play<Option<Box<S, Global>>, View> for Record<S> {
    ghost then = { recorded (λ b. S.lines b.value) };
}

/// The turn is passed on.
pub struct PassOn;

impl<S> Play<Option<Box<S, Global>>, View> for PassOn {
    ghost then = { passed_on };
}

/// A number is drawn for a caller to come.
pub struct Name;

impl<S> Play<Option<Box<S, Global>>, View> for Name {
    ghost then = { drew_number };
}

/// A pass for that caller is split off.
pub struct Fork;

impl Split<View> for Fork {
    ghost left = { settled };

    ghost right = { newborn };
}

/// A pass is joined to another.
pub struct Glue;

impl Join<View> for Glue {
    ghost both = { joining };

    ghost spent = { spent };
}

/// What a joined pass had seen is taken in.
pub struct TakeIn;

impl<S> Play<Option<Box<S, Global>>, View> for TakeIn {
    ghost then = { took_in };
}
