//! The output form that the command line requests.

ghost use Rattle.std.specs.Prelude.{◌≡◌, IfErr, IfOk, None, option_map, string_bytes};
ghost use Rattle.out_format.specs.Formats.{IsFormatError, ReadsFormat};
ghost use Rattle.jseg_lib.specs.Formatting.{IsRequested, requested_lattice, part_text_of, text_or as text_or_else, requested_texts, requested_view};

use crate::views::View;
use command_lines::jseg::{Form, LatticeChoice, Options, ViewChoice};
use lattice_view::lattice_printer::{LatticeForm, LatticeFormat};
use mj_model::{FormatFault, FormatPart};
use out_format::Format;
use std::alloc::Global;
use std::string::String;

/// What is printed for each line.
#[derive(Drop)]
pub enum OutputForm {
    /// The words of its best path.
    Words(Format),
    /// A view in place of the words.
    View(View),
}

/// Returns the requested output form: the view, if one is requested, otherwise the words of best
/// paths.
pub fn output_form(alloc: Global, options: &Options) -> Result<OutputForm, FormatFault>
    ensures requested { IfOk result (IsRequested (requested_texts options.now) options.now.view) }
    ensures rejected { IfErr result (λ fault. (options.now.view ≡ None)
        × IsFormatError (requested_texts options.now) fault) }
{
    match options.view {
        Some(choice) => Ok(OutputForm::View(view_of(choice))),
        None => Ok(OutputForm::Words(format_of(alloc, options)?)),
    }
}

/// Returns the requested view.
fn view_of(choice: ViewChoice) -> View
    ensures { result ≡ requested_view choice }
{
    match choice {
        ViewChoice::Lattice(choice) => View::Lattice(lattice_format(choice)),
        ViewChoice::Why => View::Why,
    }
}

/// Returns the requested format of lattices.
fn lattice_format(choice: LatticeChoice) -> LatticeFormat
    ensures { result ≡ requested_lattice choice }
{
    let form = match choice.form {
        Form::Tsv => LatticeForm::Tsv,
        Form::Dot => LatticeForm::Dot,
    };
    LatticeFormat {
        form,
        within: choice.within,
    }
}

/// Returns the format that is requested by name, or else the format of the four texts. Texts that
/// weren't given are MeCab's.
fn format_of(alloc: Global, options: &Options) -> Result<Format, FormatFault>
    ensures accepted { IfOk result (ReadsFormat (requested_texts options.now)) }
    ensures rejected { IfErr result (IsFormatError (requested_texts options.now)) }
{
    if options.output.is_some() {
        return Ok(Format::wakati(alloc)?);
    }
    Format::parse(
        alloc,
        text_or(&options.node, "%m\\t%H\\n"),
        options.unk.as_ref().map(|text| text.as_str()),
        text_or(&options.bos, ""),
        text_or(&options.eos, "EOS\\n"),
    )
}

/// Returns the text of a part of the format, if it was given.
pub fn part_text(options: &Options, part: FormatPart) -> Option<&str>
    ensures { option_map (λ text. text.now) result
        ≡ option_map string_bytes (part_text_of options.now part) }
{
    let given = match part {
        FormatPart::Node => &options.node,
        FormatPart::Unk => &options.unk,
        FormatPart::Bos => &options.bos,
        FormatPart::Eos => &options.eos,
    };
    given.as_ref().map(|text| text.as_str())
}

fn text_or<'a>(given: &'a Option<String>, otherwise: &'a str) -> &'a str
    ensures { result.now ≡ text_or_else given.now otherwise.now }
{
    given.as_ref().map_or(otherwise, |text| text.as_str())
}
