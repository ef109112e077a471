//! Lines of tagged strings as records of bytes.

ghost use Rattle.std.specs.Prelude.{◌≡◌, ◌∷◌, ◌++◌, [], OnOk, string_bytes};
ghost use Rattle.std.specs.List.{flat_map};
ghost use Rattle.std.specs.Str.{chars, encode_utf8_all};
ghost use Rattle.html_render_layout_tagged.specs.Grouping.{lines_of, piece_of, pieces_of};
ghost use Rattle.html_render_tree_records.specs.Records.{colour_bytes, line_record, line_records, number_bytes, piece_record, rich_record, sized};

use html_render_tree::block::{TaggedLine, TaggedLineElement, TaggedString};
use html_render_tree::decorate::RichAnnotation;
use html_render_tree::style::Colour;
use std::alloc::AllocError;

/// An annotation that can be written as a record.
pub trait Written {
    ghost use Rattle.std.specs.Prelude.{List, ℕ};

    // record of an annotation
    ghost annotation_record: { Self → List ℕ };

    /// Appends the record of the annotation to `bytes`.
    fn write(&self, bytes: &mut Vec<u8>) -> Result<(), AllocError>
        ensures { OnOk result (bytes.new.items ≡ bytes.old.items ++ annotation_record self.now) };
}

/// Appends a letter.
fn write_letter(bytes: &mut Vec<u8>, letter: u8) -> Result<(), AllocError>
    ensures { OnOk result (bytes.new.items ≡ bytes.old.items ++ letter ∷ []) }
{
    bytes.push(letter)?;
    Ok(())
}

/// Appends a number in 4 bytes, the lowest first; a number above `u32::MAX` is written as `u32::MAX`.
fn write_number(bytes: &mut Vec<u8>, number: usize) -> Result<(), AllocError>
    ensures { OnOk result (bytes.new.items ≡ bytes.old.items ++ number_bytes number) }
{
    let number = number.min(u32::MAX as usize) as u32;
    bytes.extend_from_slice(&number.to_le_bytes())?;
    Ok(())
}

/// Appends the length of a text in bytes, and the text.
fn write_text(bytes: &mut Vec<u8>, text: &str) -> Result<(), AllocError>
    ensures { OnOk result (bytes.new.items ≡ bytes.old.items ++ sized text.now) }
{
    write_number(bytes, text.len())?;
    bytes.extend_from_slice(text.as_bytes())?;
    Ok(())
}

/// Appends a letter and a colour.
fn write_colour(bytes: &mut Vec<u8>, letter: u8, colour: Colour) -> Result<(), AllocError>
    ensures { OnOk result (bytes.new.items ≡ bytes.old.items ++ letter ∷ colour_bytes colour) }
{
    bytes.extend_from_slice(&[letter, colour.r, colour.g, colour.b])?;
    Ok(())
}

/// Appends a letter, the length of a text in bytes, and the text.
fn write_named(bytes: &mut Vec<u8>, letter: u8, text: &str) -> Result<(), AllocError>
    ensures { OnOk result (bytes.new.items ≡ bytes.old.items ++ letter ∷ sized text.now) }
{
    write_letter(bytes, letter)?;
    write_text(bytes, text)
}

impl Written for RichAnnotation {
    ghost use Rattle.html_render_tree_records.specs.Records.{rich_record};

    ghost annotation_record = { rich_record };

    fn write(&self, bytes: &mut Vec<u8>) -> Result<(), AllocError> {
        match self {
            RichAnnotation::Default => write_letter(bytes, b'd'),
            RichAnnotation::Link(target) => write_named(bytes, b'l', target.as_str()),
            RichAnnotation::Image(source) => write_named(bytes, b'i', source.as_str()),
            RichAnnotation::Emphasis => write_letter(bytes, b'e'),
            RichAnnotation::Strong => write_letter(bytes, b'b'),
            RichAnnotation::Strikeout => write_letter(bytes, b's'),
            RichAnnotation::Code => write_letter(bytes, b'c'),
            RichAnnotation::Preformat(false) => write_letter(bytes, b'p'),
            RichAnnotation::Preformat(true) => write_letter(bytes, b'q'),
            RichAnnotation::Colour(colour) => write_colour(bytes, b'f', *colour),
            RichAnnotation::BgColour(colour) => write_colour(bytes, b'g', *colour),
        }
    }
}

impl Written for () {
    ghost use Rattle.html_render_tree_records.specs.Records.{plain_record};

    ghost annotation_record = { λ _. plain_record };

    fn write(&self, bytes: &mut Vec<u8>) -> Result<(), AllocError> {
        write_letter(bytes, b'd')
    }
}

/// Appends the records of annotations, in order.
fn write_annotations<A: Written>(bytes: &mut Vec<u8>, annotations: &[A]) -> Result<(), AllocError>
    ensures { OnOk result (bytes.new.items ≡ bytes.old.items ++ flat_map A.annotation_record annotations.now) }
{
    let mut left = annotations;
    while let Some((annotation, others)) = left.split_first() {
        annotation.write(bytes)?;
        left = others;
    }
    Ok(())
}

/// Appends a string's length in bytes, and the string.
#[tactic(auto, using(crate::proofs::Texts::spelled))]
fn write_characters(bytes: &mut Vec<u8>, string: &String) -> Result<(), AllocError>
    ensures { OnOk result (bytes.new.items ≡ bytes.old.items ++ sized (encode_utf8_all (chars (string_bytes string.now)))) }
{
    write_text(bytes, string)
}

/// Appends the record of a string.
fn write_string<A: Written>(
    bytes: &mut Vec<u8>,
    string: &TaggedString<Vec<A>>,
) -> Result<(), AllocError>
    ensures { OnOk result (bytes.new.items ≡ bytes.old.items ++ piece_record A.annotation_record (piece_of (TaggedLineElement.Str string.now))) }
{
    write_letter(bytes, b'S')?;
    write_number(bytes, string.tag.len())?;
    write_annotations(bytes, &string.tag)?;
    write_characters(bytes, &string.s)
}

/// Appends the record of an element of a line.
fn write_element<A: Written>(
    bytes: &mut Vec<u8>,
    element: &TaggedLineElement<Vec<A>>,
) -> Result<(), AllocError>
    ensures { OnOk result (bytes.new.items ≡ bytes.old.items ++ piece_record A.annotation_record (piece_of element.now)) }
{
    match element {
        TaggedLineElement::Str(string) => write_string(bytes, string),
        TaggedLineElement::FragmentStart(name) => write_named(bytes, b'F', name),
    }
}

/// Appends the record of a line, and those of its elements.
fn write_line<A: Written + Drop>(
    bytes: &mut Vec<u8>,
    line: &TaggedLine<Vec<A>>,
) -> Result<(), AllocError>
    ensures { OnOk result (bytes.new.items ≡ bytes.old.items ++ line_record A.annotation_record (pieces_of line.now)) }
{
    write_letter(bytes, b'L')?;
    let mut elements = line.iter();
    while let Some(element) = elements.next() {
        write_element(bytes, element)?;
    }
    Ok(())
}

/// Appends the records of lines, in order.
pub fn write_lines<A: Written + Drop>(
    bytes: &mut Vec<u8>,
    lines: &[TaggedLine<Vec<A>>],
) -> Result<(), AllocError>
    ensures { OnOk result (bytes.new.items ≡ bytes.old.items ++ line_records A.annotation_record (lines_of lines.now)) }
{
    let mut left = lines;
    while let Some((line, others)) = left.split_first() {
        write_line(bytes, line)?;
        left = others;
    }
    Ok(())
}
