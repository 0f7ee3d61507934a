//! Writes a line of JSON.
ghost use Rattle.std.specs.Prelude.{◌≡◌, ◌++◌, ◌∷◌, [], IfOk, OnOk, string_bytes};
ghost use Rattle.std.specs.Fmt.{decimal, signed_decimal};
ghost use Rattle.json.specs.Token.{begin_object, end_object, begin_array, end_array, key, string, number, boolean, null};
ghost use Rattle.tx_json.specs.Line.{IsLineOf};

use json::Writer;
use std::alloc::{AllocError, Global};
use std::marker::Model;
use tx_base::NoMemory;

/// A line of JSON that is being written, a token at a time. It places the commas and the colons,
/// and leaves the nesting to its caller. If a growth is refused, the token is missing.
#[derive(Drop)]
pub struct LineWriter {
    writer: Writer,
}

impl Model for LineWriter {
    ghost use Rattle.std.specs.Prelude.{List};
    ghost use Rattle.json.specs.Token.{Token, tokens_code};
    ghost use Rattle.tx_json.specs.Line.{IsLine};

    ghost Value = { List Token };

    ghost coded = { tokens_code };

    ghost view = { λ line. line.writer.tokens };

    ghost invariant = { λ line. IsLine line.writer };
}

impl LineWriter {
    /// A line before its first token.
    pub fn new(alloc: Global) -> LineWriter
        ensures { result ≡ [] }
    {
        LineWriter {
            writer: Writer::new(Vec::new(alloc)),
        }
    }

    /// A line before its first token, in the room that a text had.
    pub fn over(text: String) -> LineWriter
        ensures { result ≡ [] }
    {
        let mut bytes = text.into_bytes();
        bytes.clear();
        LineWriter {
            writer: Writer::new(bytes),
        }
    }

    /// The text of the line, with its end.
    ///
    /// NoMemory where a growth is refused.
    pub fn into_text(self) -> Result<String, NoMemory>
        ensures { IfOk result (λ text. IsLineOf self (string_bytes text)) }
    {
        let bytes = self.writer.into_inner();
        let Ok(mut text) = String::from_utf8(bytes) else {
            unreachable!()
        };
        text.push('\n')?;
        Ok(text)
    }

    pub fn begin_object(&mut self) -> Result<(), AllocError>
        ensures { OnOk result (self.new ≡ self.old ++ begin_object ∷ []) }
    {
        self.writer.begin_object()
    }

    pub fn end_object(&mut self) -> Result<(), AllocError>
        ensures { OnOk result (self.new ≡ self.old ++ end_object ∷ []) }
    {
        self.writer.end_object()
    }

    pub fn begin_array(&mut self) -> Result<(), AllocError>
        ensures { OnOk result (self.new ≡ self.old ++ begin_array ∷ []) }
    {
        self.writer.begin_array()
    }

    pub fn end_array(&mut self) -> Result<(), AllocError>
        ensures { OnOk result (self.new ≡ self.old ++ end_array ∷ []) }
    {
        self.writer.end_array()
    }

    pub fn key(&mut self, name: &str) -> Result<(), AllocError>
        ensures { OnOk result (self.new ≡ self.old ++ key name.now ∷ []) }
    {
        self.writer.key(name)
    }

    pub fn string(&mut self, word: &str) -> Result<(), AllocError>
        ensures { OnOk result (self.new ≡ self.old ++ string word.now ∷ []) }
    {
        self.writer.string(word)
    }

    pub fn u64(&mut self, count: u64) -> Result<(), AllocError>
        ensures { OnOk result (self.new ≡ self.old ++ number (decimal count) ∷ []) }
    {
        self.writer.u64(count)
    }

    pub fn i64(&mut self, signed: i64) -> Result<(), AllocError>
        ensures { OnOk result (self.new ≡ self.old ++ number (signed_decimal signed) ∷ []) }
    {
        self.writer.i64(signed)
    }

    pub fn boolean(&mut self, flag: bool) -> Result<(), AllocError>
        ensures { OnOk result (self.new ≡ self.old ++ boolean flag ∷ []) }
    {
        self.writer.boolean(flag)
    }

    pub fn null(&mut self) -> Result<(), AllocError>
        ensures { OnOk result (self.new ≡ self.old ++ null ∷ []) }
    {
        self.writer.null()
    }
}
