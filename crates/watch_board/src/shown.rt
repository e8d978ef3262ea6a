//! What a board shows.
ghost use Rattle.std.specs.Prelude.{◌≡◌};
ghost use Rattle.watch_board.specs.BoardList.{initial_item};

use var_access::Reply;

/// An item of a board: the number of an entry in a history, from 1, and what it was answered.
#[derive(Debug, Drop, PartialEq, Eq)]
pub struct Shown {
    /// The number of the entry, which is the length of the history that ends with it; 0 in the
    /// opening item.
    pub length: u64,
    /// What the entry was answered. None in the opening item.
    pub reply: Option<Reply>,
}

impl Shown {
    /// The item that a board begins with.
    pub(crate) fn opening() -> Shown
        ensures { result ≡ initial_item }
    {
        Shown {
            length: 0,
            reply: None,
        }
    }

    /// The same item once more. It takes no memory.
    pub(crate) fn copied(&self) -> Shown
        ensures { result ≡ self.now }
    {
        let length = self.length;
        // each case makes its item in one piece: a reply that is moved is moved with its room for
        // records
        match &self.reply {
            None => Shown {
                length,
                reply: None,
            },
            Some(Reply::Values { values }) => Shown {
                length,
                reply: Some(Reply::Values {
                    values: values.copied(),
                }),
            },
            Some(reply) => Shown {
                length,
                reply: Some(reply.copied()),
            },
        }
    }
}
