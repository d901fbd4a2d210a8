// Laws of the texts that are reported.
ghost use Rattle.std.specs.Prelude.{◌≡◌, ℕ, List, Ok};
ghost use Rattle.gq_model.specs.machine.Program.{Program};
ghost use Rattle.gq_model.specs.texts.Code.{IsProgram};
ghost use Rattle.gq_model.specs.texts.Text.{assembled};
ghost use Rattle.gq_views.specs.declared.margin.Margin.TheVariants.{Plain, Numbered};
ghost use Rattle.gq_views.specs.Assembled_listing.{ListsNumbers, ListsProgram};
ghost use Rattle.gq_views.specs.Listing.{listing};
ghost use Rattle.gq_views.specs.Numbered.{NumbersListing};
ghost use Rattle.gq_views.specs.Views_written.{list_written};

/// What holds of the text of every program (`listing`), and of what `list` writes. It does nothing.
///
/// `programs`: the listing of a program is assembled as that program, whatever its locals, sections and statements: nothing of it is lost in the text.
///
/// `written`: whatever `list` writes, for any text of a scenario and any name, is assembled as the program of the leaf of that name.
pub fn listing_laws()
    ensures programs { (p : Program) → IsProgram p → assembled (listing p) ≡ Ok p }
    ensures written { (scenario name text : List ℕ) → list_written Plain scenario name ≡ Ok text → ListsProgram scenario name text }
{}

/// What holds of the numbered text of every program (`numbered_listing`), and of what `list` writes with numbers. It does nothing.
///
/// `programs`: without what stands before each line it is the listing of that program, and the statements of each section have the numbers from 1 on, in turn.
///
/// `written`: whatever `list` writes with numbers, for any text of a scenario and any name, is the numbered text of a program, of which `list` writes the
/// listing without numbers.
pub fn numbers_laws()
    ensures programs { (p : Program) → NumbersListing p }
    ensures written { (scenario name text : List ℕ) → list_written Numbered scenario name ≡ Ok text → ListsNumbers scenario name text }
{}
