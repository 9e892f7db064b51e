// The events of a row, by the words that name them.
ghost use Rattle.std.specs.Prelude.{◌≤◌};

// `open LINE`, `close LINE`, `message LINE CLOCK BYTES`, `ask NUMBER TEXT` and `feed LINE CLOCK BYTES` are calls; the
// others set the station by hand, but for `terms`, which says what is lent.
#[derive(Clone, Copy, Debug, PartialEq, Eq)]
pub(crate) enum Event {
    Open,
    Close,
    Message,
    Ask,
    Feed,
    Terms,
    Kept,
    Line,
    Fill,
    Pending,
    Held,
    Room,
    Table,
    Hits,
}

impl Event {
    // The event that a word names, if it names one.
    pub(crate) fn named(word: &[u8]) -> Option<Event> {
        match word {
            b"open" => Some(Event::Open),
            b"close" => Some(Event::Close),
            b"message" => Some(Event::Message),
            b"ask" => Some(Event::Ask),
            b"feed" => Some(Event::Feed),
            b"terms" => Some(Event::Terms),
            b"kept" => Some(Event::Kept),
            b"line" => Some(Event::Line),
            b"fill" => Some(Event::Fill),
            b"pending" => Some(Event::Pending),
            b"held" => Some(Event::Held),
            b"room" => Some(Event::Room),
            b"table" => Some(Event::Table),
            b"hits" => Some(Event::Hits),
            _ => None,
        }
    }

    pub(crate) fn is_call(self) -> bool {
        matches!(
            self,
            Event::Open | Event::Close | Event::Message | Event::Ask | Event::Feed
        )
    }

    // How many words the event takes, its own name with them.
    pub(crate) fn width(self) -> usize
        ensures below { result ≤ 14 }
        ensures above { 1 ≤ result }
    {
        match self {
            Event::Open | Event::Close | Event::Fill | Event::Held | Event::Room => 2,
            Event::Ask | Event::Hits => 3,
            Event::Message | Event::Feed | Event::Terms | Event::Pending => 4,
            Event::Kept | Event::Table => 6,
            Event::Line => 14,
        }
    }
}
