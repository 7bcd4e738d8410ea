//! The theorems of a stretch of service, each on the contract of a function that does nothing else.
ghost use Rattle.service.specs.Cases.{ComesAbout, RuledOut};
ghost use Rattle.service.specs.Theorems.{Begins, GoesOn, Independent};

/// A theorem that was proved; there is nothing in it to run.
#[derive(Clone, Copy)]
pub struct Proved;

/// A switch that was just made begins a stretch of service.
pub fn begins<T>() -> Proved
    ensures { Begins T }
{
    Proved
}

/// Whatever call is done as it should be carries a stretch on, and with it the law.
pub fn goes_on<T>() -> Proved
    ensures { GoesOn T }
{
    Proved
}

/// The answers to offers, groups and trials since a turn depend on nothing before it.
pub fn independent<T>() -> Proved
    ensures { Independent T }
{
    Proved
}

/// The law rules out eleven histories that a faulty switch might have.
pub fn ruled_out() -> Proved
    ensures { RuledOut }
{
    Proved
}

/// A history in which a packet is served comes about.
pub fn comes_about() -> Proved
    ensures { ComesAbout }
{
    Proved
}
