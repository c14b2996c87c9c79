//! The names of pins.

ghost use Rattle.std.specs.Prelude.{◌≡◌};
ghost use Rattle.cell_types.specs.PinName.{pin_text};

/// A pin of a cell of the library.
#[derive(Clone, Copy, Debug, PartialEq, Eq)]
pub enum PinName {
    /// `A`: an operand.
    A,
    /// `B`: an operand.
    B,
    /// `S`: what chooses; the set pin of a gate.
    S,
    /// `Y`: the result.
    Y,
    /// `CLK`: the clock.
    Clk,
    /// `EN`: the enable.
    En,
    /// `ARST`: the asynchronous reset.
    Arst,
    /// `SRST`: the synchronous reset.
    Srst,
    /// `ALOAD`: the asynchronous load.
    Aload,
    /// `SET`: what sets single bits.
    Set,
    /// `CLR`: what clears single bits.
    Clr,
    /// `AD`: what an asynchronous load stores.
    Ad,
    /// `D`: what is stored.
    D,
    /// `Q`: what is kept.
    Q,
    /// `C`: the clock of a gate.
    C,
    /// `E`: the enable of a gate.
    E,
    /// `R`: the reset or clear pin of a gate.
    R,
    /// `L`: the load pin of a gate.
    L,
    /// `ADDR`: an address.
    Addr,
    /// `DATA`: the word at it.
    Data,
}

impl PinName {
    /// The name as a cell has it, with its backslash.
    #[rattlefmt::skip]
    pub fn text(self) -> &'static [u8]
        ensures value { result.now ≡ pin_text self }
    {
        match self {
            PinName::A => b"\\A",
            PinName::B => b"\\B",
            PinName::S => b"\\S",
            PinName::Y => b"\\Y",
            PinName::Clk => b"\\CLK",
            PinName::En => b"\\EN",
            PinName::Arst => b"\\ARST",
            PinName::Srst => b"\\SRST",
            PinName::Aload => b"\\ALOAD",
            PinName::Set => b"\\SET",
            PinName::Clr => b"\\CLR",
            PinName::Ad => b"\\AD",
            PinName::D => b"\\D",
            PinName::Q => b"\\Q",
            PinName::C => b"\\C",
            PinName::E => b"\\E",
            PinName::R => b"\\R",
            PinName::L => b"\\L",
            PinName::Addr => b"\\ADDR",
            PinName::Data => b"\\DATA",
        }
    }
}
