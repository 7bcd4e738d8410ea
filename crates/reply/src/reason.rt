//! Why a call may be refused: the reasons, with the number and the layer of each.
ghost use Rattle.reply.specs.Table.{layer as layer_of, number as number_of};
ghost use Rattle.std.specs.Prelude.{◌≡◌};

/// Which layer gave a refusal.
#[derive(Clone, Copy, PartialEq, Eq, Debug)]
pub enum Layer {
    /// The form of bytes, numbers and memory.
    Format = 1,
    /// The switch as a whole.
    Switch = 2,
    /// A batch, or one of its pairs.
    Batch = 3,
}

/// Why a call was refused.
#[derive(Clone, Copy, PartialEq, Eq, Debug)]
pub enum Reason {
    /// The switch is out of service.
    OutOfService = 1,
    /// The input is n or more.
    NoSuchInput = 2,
    /// The output is n or more.
    NoSuchOutput = 3,
    /// The input's gathering load is at its bound.
    InputFull = 4,
    /// The output's gathering load is at its bound.
    OutputFull = 5,
    /// The departure list has fewer than n records.
    ListTooShort = 6,
    /// One slot is left and a clearing load is above 1.
    LeftOver = 7,
    /// The clearing batch has no slots left.
    NoSlotsLeft = 8,
    /// The bytes of a message end too early.
    MessageCut = 10,
    /// The message kind is unknown.
    UnknownMessageKind = 11,
    /// The packet kind is not the switch's.
    OtherPacketKind = 12,
    /// Bytes follow the end of a message.
    MessageRunsOn = 13,
    /// A message counts more than 4,096 entries.
    CountTooLarge = 14,
    /// The memory to write to is too short.
    MemoryTooShort = 20,
    /// A number of ports or slots, or a factor of the period, is out of range.
    OutOfRange = 21,
    /// The bytes of a document end too early.
    DocumentCut = 22,
    /// A row of a timetable is no setting.
    RowBreaksRule = 23,
    /// Spare bits of a document are not zero.
    SpareBitsSet = 24,
    /// Bytes follow the end of a document.
    DocumentRunsOn = 25,
    /// A timetable counts more than 1,024 rows.
    TooManyRows = 26,
}

impl Reason {
    /// The number of the reason in the table of refusals.
    // No `From<Reason> for u8`: a reason has two numbers, this one and its layer's.
    pub fn number(self) -> u8
        ensures { result ≡ number_of self }
    {
        self as u8
    }

    /// The layer that gives the reason.
    pub fn layer(self) -> Layer
        ensures { result ≡ layer_of self }
    {
        match self {
            Reason::OutOfService | Reason::ListTooShort | Reason::LeftOver => Layer::Switch,
            Reason::NoSuchInput
            | Reason::NoSuchOutput
            | Reason::InputFull
            | Reason::OutputFull
            | Reason::NoSlotsLeft => Layer::Batch,
            Reason::MessageCut
            | Reason::UnknownMessageKind
            | Reason::OtherPacketKind
            | Reason::MessageRunsOn
            | Reason::CountTooLarge
            | Reason::MemoryTooShort
            | Reason::OutOfRange
            | Reason::DocumentCut
            | Reason::RowBreaksRule
            | Reason::SpareBitsSet
            | Reason::DocumentRunsOn
            | Reason::TooManyRows => Layer::Format,
        }
    }
}
