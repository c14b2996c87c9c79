//! Laws of written texts.

ghost use Rattle.std.specs.Prelude.{◌≡◌, ◌↔◌, ℕ, List};
ghost use Rattle.rtl_ir.specs.declared.module.Design.{Design};
ghost use Rattle.rtl_ir.specs.declared.module.Module.{Module};
ghost use Rattle.rtl_ir.specs.Ports.{port_table_of};
ghost use Rattle.rtl_read.specs.Reads.{Reads};
ghost use Rattle.rtl_write.specs.Text.{body_text, text_of};
ghost use Rattle.rtl_readable.specs.Readable.{IsReadable, IsReadableModule};
ghost use Rattle.rtl_write.specs.Bodies.{HasPlaceForName};
ghost use Rattle.rtl_write.specs.PortTables.{ArePorts};

/// What is written of a readable design is read as that design, and as no other. The readable designs
/// are just those that a text gives, and so what was read of a text and written is read again.
pub fn reads_again()
    ensures round_trip { (design : Design) → IsReadable design → Reads (text_of design) design }
    ensures only { (design other : Design) → IsReadable design → Reads (text_of design) other → other ≡ design }
    ensures readable { (text : List ℕ) (design : Design) → Reads text design → IsReadable design }
    ensures again { (text : List ℕ) (design : Design) → Reads text design → Reads (text_of design) design }
{}

/// The text of a module's body has no name; a blank and the name in one place make it the module's
/// text. Of modules that a text can give, the texts of bodies are equal exactly where the bodies are.
pub fn bodies_have_their_texts()
    ensures place { («module» : Module) → HasPlaceForName «module» }
    ensures name { («module» : Module) (name : List ℕ) →
        body_text (record «module» { id = name }) ≡ body_text «module» }
    ensures equal { («module» other : Module) → IsReadableModule «module» → IsReadableModule other →
        (body_text «module» ≡ body_text other) ↔ (record «module» { id = other.id } ≡ other) }
{}

/// The ports of the modules that a module instantiates, in a design that a text can give, are such
/// as their text gives again.
pub fn tables_of_readable_designs()
    ensures { (design : Design) (at : ℕ) → IsReadable design →
        ArePorts (record { modules = port_table_of design.modules at }) }
{}
