//! The list of a board, which exists in proofs alone: what threads share of it is its length.
ghost use Rattle.std.specs.Prelude.{◌≡◌, ◌++◌, ◌∷◌, [], IfSome};
ghost use Rattle.watch_board.specs.BoardList.{MayFollow, HasRisingLengths, ShorterBegins, initial_item};

use crate::shown::Shown;
use logbook::{Gain, Offer, Plain, Play, Rule, Seen, Start, Word};
use std::marker::Model;

/// The rule of a board's list: lengths rise, and a word counts the items.
pub struct RisingList;

impl Rule<Shown, u64> for RisingList {
    ghost use Rattle.std.specs.Prelude.{[], ◌∷◌};
    ghost use base.Fml.{ftrue};
    ghost use Rattle.watch_board.specs.ListRule.{KeepsListRule};
    ghost use Rattle.watch_board.specs.BoardList.{initial_item};

    ghost holds = { λ cells list. KeepsListRule cells list };

    ghost first = { initial_item ∷ [] };

    ghost hinted = { λ n list. Unit {0} };

    ghost shows = { λ list. [] };

    ghost keeps = { λ names list. ftrue };

    ghost moves = { λ ask before after answer. Unit {0} };
}

/// Nothing is traded for an item.
pub struct NoGain;

impl Gain<Shown, u64> for NoGain {
    ghost use base.Fml.{ftrue};

    ghost after = { λ names about answer. ftrue };
}

/// The step that adds an item.
pub struct Append;

impl Play<Shown, u64> for Append {
    ghost use Rattle.watch_board.specs.ListRule.{AppendsItem};

    ghost then = { AppendsItem };
}

impl Plain<Shown, Shown, u64> for Append {
    ghost use Rattle.std.specs.Prelude.{None};

    ghost ask = { λ item. item };

    ghost state = { λ item. None };
}

/// The word that counts the items of a board's list. The publisher alone has it. Contracts see the
/// board.
#[derive(Drop)]
pub struct ItemCount {
    word: Word<Shown, u64, RisingList>,
}

impl Model for ItemCount {
    ghost use Rattle.std.specs.Prelude.{◌≡◌};
    ghost use Rattle.logbook.specs.Pages.{Book};
    ghost use Rattle.watch_board.specs.ListRule.{item_count_word};

    ghost Value = { Book };

    ghost view = { λ c. c.word.book };

    ghost invariant = { λ c. c.word ≡ item_count_word c.word.book };
}

/// A prefix of a board's list. It has no bytes but its length. Contracts see the board and the
/// prefix.
#[derive(Drop)]
pub struct Prefix {
    items: u64,
    seen: Seen<Shown, u64, RisingList>,
}

impl Model for Prefix {
    ghost use Rattle.std.specs.Prelude.{◌≡◌, length};
    ghost use Rattle.watch_board.specs.BoardList.{KnownBoard, HasRisingLengths};

    ghost Value = { KnownBoard };

    ghost view = { λ p. record { board = p.seen.book; list = p.seen.log } };

    ghost invariant = { λ p. (p.items ≡ length p.seen.log) × HasRisingLengths p.seen.log };
}

impl Prefix {
    /// The list of a new board, and the word that counts it.
    pub fn open() -> (ItemCount, Prefix)
        ensures board { result.0 ≡ result.1.board }
        ensures list { result.1.list ≡ initial_item ∷ [] }
    {
        let (seen, mut first, _second) = Seen::open(Start::alone(), 1, 0);
        let word = Word::tracked(1, &mut first);
        (ItemCount { word }, Prefix { items: 1, seen })
    }

    /// The same prefix once more.
    pub fn copied(&self) -> Prefix
        ensures { result ≡ self.now }
    {
        Prefix {
            items: self.items,
            seen: self.seen.again(),
        }
    }

    /// Whether the other one is longer. Of two prefixes of one list the shorter is a prefix of the
    /// longer.
    pub fn is_shorter(&self, other: &Prefix) -> bool
        requires { self.now.board ≡ other.now.board }
        ensures { ShorterBegins result self.now.list other.now.list }
    {
        let mut both = self.seen.again();
        both.learn(&other.seen);
        self.items < other.items
    }

    /// The list with one item more, where this is the whole list. None where it isn't, or where the
    /// items couldn't be counted any more.
    pub fn with(&self, count: &ItemCount, item: &Shown) -> Option<Prefix>
        requires board { count.now ≡ self.now.board }
        requires rises { MayFollow self.now.list item.now }
        ensures board { IfSome result (λ longer. longer.board ≡ self.now.board) }
        ensures list { IfSome result (λ longer. longer.list ≡ self.now.list ++ item.now ∷ []) }
    {
        if self.items == u64::MAX {
            return None;
        }
        let next = self.items + 1;
        let mut seen = self.seen.again();
        let mut offer: Offer<Shown, u64, RisingList, NoGain> = seen.plain::<NoGain, Shown, Append>(
            item,
        );
        let mut pen = seen.no_pen();
        let found = count
            .word
            .compare_exchange::<Append, NoGain>(self.items, next, &mut seen, &mut offer, &mut pen);
        if found != self.items {
            return None;
        }
        Some(Prefix { items: next, seen })
    }

    /// Lengths rise in it.
    pub fn law_of_rising(&self)
        ensures { HasRisingLengths self.now.list }
    {
        let _ = &self.items;
    }
}
