//! Kinds of words.

ghost use Rattle.std.specs.Prelude.{◌≡◌};
ghost use Rattle.rh_explained.specs.WordKinds.{expected as expected_text};

/// The kind of a word of a command.
#[derive(Clone, Copy)]
pub enum WordKind {
    /// The name of a task that is to be started.
    NewName,
    /// The name of a live task.
    TaskName,
    /// The name of a file.
    FileName,
    /// One of a slot's anchors.
    Anchor,
    /// The bytes of a receive buffer.
    Buffer,
    /// So many bytes.
    Size,
    /// An offset in a block.
    Offset,
    /// So many bytes more or fewer.
    Amount,
    /// The number of an area.
    AreaNumber,
    /// The number of a made area.
    MadeNumber,
    /// The most pages of an area.
    MostPages,
    /// The id of a transfer.
    Id,
    /// The address of a block.
    Address,
    /// Bytes in hexadecimal.
    Bytes,
    /// A leafname.
    Leaf,
    /// How a task takes part in transfers.
    Manner,
    /// Which way a transfer goes.
    Direction,
    /// Whether budging is on.
    Switch,
    /// What is done with a block of the module area.
    RmaWord,
    /// The event code of a message: whether it comes back where it is not answered.
    Code,
    /// The handle of a task.
    Handle,
    /// The ref of the message that is answered.
    AnsweredRef,
    /// The action of a message.
    ActionNumber,
    /// The data of a message.
    Data,
}

impl WordKind {
    /// What a word of the kind has to be.
    pub fn expected(self) -> &'static [u8]
        ensures { result.now ≡ expected_text self }
    {
        match self {
            WordKind::NewName | WordKind::TaskName | WordKind::FileName =>
                b"a name is a letter, then up to 11 letters or digits",
            WordKind::Anchor => b"an anchor is 0 to 63",
            WordKind::Buffer => b"a receive buffer has 1 to 65536 bytes",
            WordKind::Size => b"a size is 0 to 2147483647",
            WordKind::Offset => b"an offset is 0 to 2147483647",
            WordKind::Amount => b"an amount is 0 to 2147483647, with - before it or not",
            WordKind::AreaNumber => b"an area is 0 to 65535",
            WordKind::MadeNumber => b"a made area is 256 to 65535",
            WordKind::MostPages => b"the most pages of an area are 1 to 1024",
            WordKind::Id => b"an id is 1 to 4294967295",
            WordKind::Address => b"an address is & and 1 to 8 hexadecimal digits",
            WordKind::Bytes => b"bytes are hexadecimal digits, two for each",
            WordKind::Leaf => b"a leafname has 1 to 10 characters",
            WordKind::Manner => b"this word is deaf, file or raw, or left out",
            WordKind::Direction => b"this word is in or out",
            WordKind::Switch => b"this word is on or off",
            WordKind::RmaWord => b"this word is claim, free or resize",
            WordKind::Code => b"this word is 17 or 18",
            WordKind::Handle => b"a handle is 1 to 4294967295",
            WordKind::AnsweredRef => b"a ref is 0 to 4294967295, and 0 answers nothing",
            WordKind::ActionNumber => b"an action is 0 to 4294967295",
            WordKind::Data => b"data are hexadecimal digits, eight for each word, or left out",
        }
    }
}
