//! Elements of a picture in SVG.
ghost use Rattle.std.specs.Prelude.{◌≡◌, ◌++◌, OnOk, string_bytes};
ghost use Rattle.tx_picture.specs.Svg.{numbered, numbers_text, shape_name, shape_text, title_text, titled_text, words_text, worded};

use crate::escape::put_escaped;
use crate::wording::Wording;
use std::alloc::AllocError;
use std::fmt::Write;
use tx_lines::put;

/// A shape with four numbers.
#[derive(Clone, Copy)]
pub(crate) enum Shape {
    /// Its left, its top, its width and its height.
    Rect,
    /// Where it begins, and where it ends.
    Line,
    /// Its middle, and how far it reaches to each side and up.
    Ellipse,
}

/// Four numbers of a shape, in pixels.
#[derive(Clone, Copy)]
pub(crate) struct Numbers(pub u64, pub u64, pub u64, pub u64);

/// Appends a shape of a class.
#[tactic(auto, unfolding(crate::specs::Svg::shape_text))]
pub(crate) fn put_shape(
    text: &mut String,
    shape: Shape,
    class: &str,
    numbers: Numbers,
) -> Result<(), AllocError>
    ensures { OnOk result
        (string_bytes text.new ≡ string_bytes text.old ++ shape_text shape class.now numbers) }
{
    write!(text, "<{}", shape_name(shape))?;
    put_word(text, "class", class)?;
    put_numbers(text, shape, numbers)?;
    put(text, "/>\n")
}

/// The name of a shape's element.
fn shape_name(shape: Shape) -> &'static str
    ensures { result.now ≡ shape_name shape }
{
    match shape {
        Shape::Rect => "rect",
        Shape::Line => "line",
        Shape::Ellipse => "ellipse",
    }
}

/// Appends the four numbers of a shape.
fn put_numbers(text: &mut String, shape: Shape, numbers: Numbers) -> Result<(), AllocError>
    ensures { OnOk result
        (string_bytes text.new ≡ string_bytes text.old ++ numbers_text shape numbers) }
{
    let Numbers(a, b, c, d) = numbers;
    match shape {
        Shape::Rect => write!(text, " x=\"{a}\" y=\"{b}\" width=\"{c}\" height=\"{d}\""),
        Shape::Line => write!(text, " x1=\"{a}\" y1=\"{b}\" x2=\"{c}\" y2=\"{d}\""),
        Shape::Ellipse => write!(text, " cx=\"{a}\" cy=\"{b}\" rx=\"{c}\" ry=\"{d}\""),
    }
}

/// Appends a text of a class, that begins, ends or has its middle at a place, as the class says.
#[tactic(auto, unfolding(crate::specs::Svg::words_text))]
pub(crate) fn put_words(
    text: &mut String,
    class: &str,
    x: u64,
    y: u64,
    words: &[u8],
) -> Result<(), AllocError>
    ensures { OnOk result
        (string_bytes text.new ≡ string_bytes text.old ++ words_text class.now x y words.now) }
{
    put(text, "<text")?;
    put_word(text, "class", class)?;
    put_number(text, "x", x)?;
    put_number(text, "y", y)?;
    put(text, ">")?;
    put_escaped(text, words)?;
    put(text, "</text>\n")
}

/// Appends a text of a class, at a place, with the whole of it as its title where it is cut.
#[tactic(auto, unfolding(crate::specs::Svg::titled_text))]
pub(crate) fn put_titled(
    text: &mut String,
    class: &str,
    x: u64,
    y: u64,
    words: &Wording,
) -> Result<(), AllocError>
    ensures { OnOk result (string_bytes text.new ≡ string_bytes text.old
        ++ titled_text class.now x y words.now.shown.items words.now.whole.items) }
{
    put(text, "<text")?;
    put_word(text, "class", class)?;
    put_number(text, "x", x)?;
    put_number(text, "y", y)?;
    put(text, ">")?;
    put_title(text, words)?;
    put_escaped(text, words.shown.as_slice())?;
    put(text, "</text>\n")
}

/// Appends the title of a text that is cut.
fn put_title(text: &mut String, words: &Wording) -> Result<(), AllocError>
    ensures { OnOk result (string_bytes text.new ≡ string_bytes text.old
        ++ title_text words.now.shown.items words.now.whole.items) }
{
    if words.shown.len() >= words.whole.len() {
        return Ok(());
    }
    put(text, "<title>")?;
    put_escaped(text, words.whole.as_slice())?;
    put(text, "</title>\n")
}

/// Appends an attribute that is a number.
pub(crate) fn put_number(text: &mut String, name: &str, number: u64) -> Result<(), AllocError>
    ensures { OnOk result
        (string_bytes text.new ≡ string_bytes text.old ++ numbered name.now number) }
{
    write!(text, " {name}=\"{number}\"")
}

/// Appends an attribute that is a word.
pub(crate) fn put_word(text: &mut String, name: &str, word: &str) -> Result<(), AllocError>
    ensures { OnOk result
        (string_bytes text.new ≡ string_bytes text.old ++ worded name.now word.now) }
{
    write!(text, " {name}=\"")?;
    put_escaped(text, word.as_bytes())?;
    put(text, "\"")
}
