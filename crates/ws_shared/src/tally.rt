//! What a worker knows of the events that it made, by a ledger for each kind.
ghost use Rattle.std.specs.Prelude.{◌≡◌, ◌+◌, ◌<◌};
ghost use Rattle.ws_shared.specs.Counts.{none_made, count_event, noted};

use std::marker::{Brand, Model, PhantomData};
use std::sync::ledger::{Blank, Book, Ledger, Share};
use ws_board::Event;

/// Which board it is: its ledgers, and what it was opened with. Each call of a program picks it.
pub trait Desk {
    ghost use Rattle.ws_board.specs.Work.{Opening};
    ghost use Rattle.ws_shared.specs.Counts.{LedgerNames};

    ghost names: { LedgerNames };

    ghost opening: { Opening };
}

impl Desk for Brand {
    ghost use Rattle.std.specs.Prelude.{[]};
    ghost use Rattle.std.specs.FinMap.{empty};

    ghost names = { record { takes = 0; finishes = 0; backs = 0; idles = 0; hands = 0 } };

    ghost opening = { record { jobs = []; cache = empty } };
}

/// The ledger of takes.
pub(super) struct Takes<L: Desk> {
    of: PhantomData<L>,
}

impl<L: Desk> Ledger for Takes<L> {
    ghost name = { L.names.takes };

    ghost parts = { L.names.hands };
}

/// The ledger of finishes.
pub(super) struct Finishes<L: Desk> {
    of: PhantomData<L>,
}

impl<L: Desk> Ledger for Finishes<L> {
    ghost name = { L.names.finishes };

    ghost parts = { L.names.hands };
}

/// The ledger of backs.
pub(super) struct Backs<L: Desk> {
    of: PhantomData<L>,
}

impl<L: Desk> Ledger for Backs<L> {
    ghost name = { L.names.backs };

    ghost parts = { L.names.hands };
}

/// The ledger of idles.
pub(super) struct Idles<L: Desk> {
    of: PhantomData<L>,
}

impl<L: Desk> Ledger for Idles<L> {
    ghost name = { L.names.idles };

    ghost parts = { L.names.hands };
}

/// Four ledgers that no type stands for yet.
#[derive(Drop)]
pub struct Blanks {
    takes: Blank,
    finishes: Blank,
    backs: Blank,
    idles: Blank,
}

impl Model for Blanks {
    ghost use Rattle.std.specs.Prelude.{◌≡◌};
    ghost use Rattle.ws_shared.specs.Counts as counts;

    ghost Value = { counts.LedgerNames };

    ghost coded = { counts.names_code };

    ghost view = { λ a. record { takes = a.takes.name; finishes = a.finishes.name; backs = a.backs.name; idles = a.idles.name; hands = a.takes.parts } };

    ghost invariant = { λ a. (a.finishes.parts ≡ a.takes.parts) × (a.backs.parts ≡ a.takes.parts) × (a.idles.parts ≡ a.takes.parts) };
}

impl Blanks {
    /// Ledgers for that many workers.
    pub fn new(hands: u64) -> Blanks
        ensures { result.hands ≡ hands }
    {
        Blanks {
            takes: Blank::new(hands),
            finishes: Blank::new(hands),
            backs: Blank::new(hands),
            idles: Blank::new(hands),
        }
    }

    /// The books, and all shares.
    pub(super) fn open<L: Desk>(self) -> (Books<L>, Tally<L>)
        requires { self ≡ L.names }
        ensures books { result.0 ≡ none_made }
        ensures shares { result.1 ≡ record { parts = L.names.hands; made = none_made } }
    {
        let Blanks {
            takes,
            finishes,
            backs,
            idles,
        } = self;
        let (takes_book, takes) = takes.open::<Takes<L>>();
        let (finishes_book, finishes) = finishes.open::<Finishes<L>>();
        let (backs_book, backs) = backs.open::<Backs<L>>();
        let (idles_book, idles) = idles.open::<Idles<L>>();
        let totals = Totals {
            takes: takes_book,
            finishes: finishes_book,
            backs: backs_book,
            idles: idles_book,
        };
        let shares = Shares {
            takes,
            finishes,
            backs,
            idles,
        };
        (Books { of: totals }, Tally { of: shares })
    }
}

/// A share in each ledger.
#[derive(Drop)]
pub(super) struct Shares<L: Desk> {
    takes: Share<Takes<L>>,
    finishes: Share<Finishes<L>>,
    backs: Share<Backs<L>>,
    idles: Share<Idles<L>>,
}

/// Shares of equally many parts.
#[derive(Drop)]
pub(super) struct Tally<L: Desk> {
    of: Shares<L>,
}

impl<L: Desk> Model for Tally<L> {
    ghost use Rattle.std.specs.Prelude.{◌≡◌};
    ghost use Rattle.ws_shared.specs.Counts as counts;

    ghost Value = { counts.Stake };

    ghost coded = { counts.stake_code };

    ghost view = { λ a. record { parts = a.of.takes.parts; made = counts.so_many a.of.takes.amount a.of.finishes.amount a.of.backs.amount a.of.idles.amount } };

    ghost invariant = { λ a. (a.of.finishes.parts ≡ a.of.takes.parts) × (a.of.backs.parts ≡ a.of.takes.parts) × (a.of.idles.parts ≡ a.of.takes.parts) };
}

impl<L: Desk> Tally<L> {
    /// One part of each, with which nothing was made.
    pub(super) fn split_one(&mut self) -> Tally<L>
        requires { 1 < self.old.parts }
        ensures one { result ≡ record { parts = 1; made = none_made } }
        ensures left { self.new.parts + 1 ≡ self.old.parts }
        ensures same { self.new.made ≡ self.old.made }
    {
        let of = Shares {
            takes: self.of.takes.split_off(1, 0),
            finishes: self.of.finishes.split_off(1, 0),
            backs: self.of.backs.split_off(1, 0),
            idles: self.of.idles.split_off(1, 0),
        };
        Tally { of }
    }

    /// Takes the other's parts in, and what was made with them.
    pub(super) fn merge(&mut self, other: Tally<L>)
        ensures parts { self.new.parts ≡ self.old.parts + other.parts }
        ensures takes { self.new.made.takes ≡ self.old.made.takes + other.made.takes }
        ensures finishes { self.new.made.finishes ≡ self.old.made.finishes + other.made.finishes }
        ensures backs { self.new.made.backs ≡ self.old.made.backs + other.made.backs }
        ensures idles { self.new.made.idles ≡ self.old.made.idles + other.made.idles }
    {
        let Tally { of } = other;
        let Shares {
            takes,
            finishes,
            backs,
            idles,
        } = of;
        self.of.takes.merge(takes);
        self.of.finishes.merge(finishes);
        self.of.backs.merge(backs);
        self.of.idles.merge(idles);
    }
}

/// A book of each ledger.
#[derive(Drop)]
pub(super) struct Totals<L: Desk> {
    takes: Book<Takes<L>>,
    finishes: Book<Finishes<L>>,
    backs: Book<Backs<L>>,
    idles: Book<Idles<L>>,
}

/// The books, which contracts see as their totals.
#[derive(Drop)]
pub(super) struct Books<L: Desk> {
    of: Totals<L>,
}

impl<L: Desk> Model for Books<L> {
    ghost use Rattle.ws_shared.specs.Counts as counts;

    ghost Value = { counts.Counts };

    ghost coded = { counts.counts_code };

    ghost view = { λ a. record { takes = a.of.takes.total; finishes = a.of.finishes.total; backs = a.of.backs.total; idles = a.of.idles.total } };
}

impl<L: Desk> Books<L> {
    /// Counts an event, in the share of who made it.
    pub(super) fn add(&mut self, mine: &mut Tally<L>, event: Event)
        requires { 0 < mine.old.parts }
        ensures total { self.new ≡ count_event self.old event }
        ensures mine { mine.new ≡ noted mine.old event }
    {
        match event {
            Event::Take(_, _) => self.of.takes.add(&mut mine.of.takes, 1),
            Event::Finish(_, _) => self.of.finishes.add(&mut mine.of.finishes, 1),
            Event::Back(_, _) => self.of.backs.add(&mut mine.of.backs, 1),
            Event::Idle(_) => self.of.idles.add(&mut mine.of.idles, 1),
        }
    }

    /// Whoever has all parts knows the totals.
    pub(super) fn audit(&mut self, all: &mut Tally<L>)
        requires { all.old.parts ≡ L.names.hands }
        ensures { self.old ≡ all.old.made }
    {
        self.of.takes.audit(&mut all.of.takes);
        self.of.finishes.audit(&mut all.of.finishes);
        self.of.backs.audit(&mut all.of.backs);
        self.of.idles.audit(&mut all.of.idles);
    }
}
