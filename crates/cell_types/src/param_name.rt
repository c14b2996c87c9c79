//! The names of parameters.

ghost use Rattle.std.specs.Prelude.{◌≡◌};
ghost use Rattle.cell_types.specs.ParamName.{param_text};

/// A parameter of a cell of the library.
#[derive(Clone, Copy, Debug, PartialEq, Eq)]
pub enum ParamName {
    /// `A_SIGNED`: whether A is signed.
    ASigned,
    /// `A_WIDTH`: the width of A.
    AWidth,
    /// `B_SIGNED`: whether B is signed.
    BSigned,
    /// `B_WIDTH`: the width of B.
    BWidth,
    /// `Y_WIDTH`: the width of Y.
    YWidth,
    /// `WIDTH`: the width of a word.
    Width,
    /// `S_WIDTH`: the width of S.
    SWidth,
    /// `OFFSET`: the lowest bit of a slice.
    Offset,
    /// `CLK_POLARITY`: whether CLK acts by its rising edge.
    ClkPolarity,
    /// `EN_POLARITY`: whether EN acts when it is 1.
    EnPolarity,
    /// `ARST_POLARITY`: whether ARST acts when it is 1.
    ArstPolarity,
    /// `SRST_POLARITY`: whether SRST acts when it is 1.
    SrstPolarity,
    /// `ALOAD_POLARITY`: whether ALOAD acts when it is 1.
    AloadPolarity,
    /// `SET_POLARITY`: whether SET acts when it is 1.
    SetPolarity,
    /// `CLR_POLARITY`: whether CLR acts when it is 1.
    ClrPolarity,
    /// `ARST_VALUE`: what ARST sets.
    ArstValue,
    /// `SRST_VALUE`: what SRST sets.
    SrstValue,
    /// `MEMID`: the name of the memory.
    Memid,
    /// `ABITS`: the width of an address.
    Abits,
    /// `CLK_ENABLE`: whether the port has a clock.
    ClkEnable,
    /// `TRANSPARENT`: not read.
    Transparent,
    /// `TRANSPARENCY_MASK`: not read.
    TransparencyMask,
    /// `COLLISION_X_MASK`: not read.
    CollisionXMask,
    /// `INIT_VALUE`: not read.
    InitValue,
    /// `CE_OVER_SRST`: not read.
    CeOverSrst,
    /// `PORTID`: the number of a write port.
    Portid,
    /// `PRIORITY_MASK`: the write ports that come before this one where both write.
    PriorityMask,
    /// `WORDS`: the number of start words.
    Words,
    /// `PRIORITY`: the place in the order of start words.
    Priority,
}

impl ParamName {
    /// The name as a cell has it, with its backslash.
    #[rattlefmt::skip]
    pub fn text(self) -> &'static [u8]
        ensures value { result.now ≡ param_text self }
    {
        match self {
            ParamName::ASigned => b"\\A_SIGNED",
            ParamName::AWidth => b"\\A_WIDTH",
            ParamName::BSigned => b"\\B_SIGNED",
            ParamName::BWidth => b"\\B_WIDTH",
            ParamName::YWidth => b"\\Y_WIDTH",
            ParamName::Width => b"\\WIDTH",
            ParamName::SWidth => b"\\S_WIDTH",
            ParamName::Offset => b"\\OFFSET",
            ParamName::ClkPolarity => b"\\CLK_POLARITY",
            ParamName::EnPolarity => b"\\EN_POLARITY",
            ParamName::ArstPolarity => b"\\ARST_POLARITY",
            ParamName::SrstPolarity => b"\\SRST_POLARITY",
            ParamName::AloadPolarity => b"\\ALOAD_POLARITY",
            ParamName::SetPolarity => b"\\SET_POLARITY",
            ParamName::ClrPolarity => b"\\CLR_POLARITY",
            ParamName::ArstValue => b"\\ARST_VALUE",
            ParamName::SrstValue => b"\\SRST_VALUE",
            ParamName::Memid => b"\\MEMID",
            ParamName::Abits => b"\\ABITS",
            ParamName::ClkEnable => b"\\CLK_ENABLE",
            ParamName::Transparent => b"\\TRANSPARENT",
            ParamName::TransparencyMask => b"\\TRANSPARENCY_MASK",
            ParamName::CollisionXMask => b"\\COLLISION_X_MASK",
            ParamName::InitValue => b"\\INIT_VALUE",
            ParamName::CeOverSrst => b"\\CE_OVER_SRST",
            ParamName::Portid => b"\\PORTID",
            ParamName::PriorityMask => b"\\PRIORITY_MASK",
            ParamName::Words => b"\\WORDS",
            ParamName::Priority => b"\\PRIORITY",
        }
    }
}
