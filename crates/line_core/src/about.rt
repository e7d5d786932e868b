//! Lines about a file: the name is lent beside the words, so that no memory is taken.

ghost use Rattle.std.specs.Prelude.{◌≡◌, ◌≤◌, ◌++◌, ◌∷◌, [], length};
ghost use Rattle.octets_core.specs.FieldNames.{name_of};
ghost use Rattle.line_core.specs.Lines.{line, line_about, layout_line, crl_line, limit_line, parent_line, epoch_line};
ghost use Rattle.line_core.specs.Lines.{coverage_line, cert_line, page_line};
ghost use Rattle.line_core.specs.Sending.{Sends};

use crate::line::Line;
use crate::show::write_text;
use crate::words::{cert_text, crl_text, field_text, page_text, what_text, why_text};
use crl_core::CrlFault;
use gather_core::PageFault;
use job_core::What;
use octets_core::{Key32, LayoutFault};
use outside_core::{Failed, Sink};
use sct_core::CertFault;
use std::marker::Model;

/// One line: its words, the name of the file that it is about, and its end. A line about no file has them all as
/// words.
#[derive(Drop)]
pub struct Message<'a> {
    words: Line,
    name: &'a str,
    end: &'static [u8],
}

impl<'a> Model for Message<'a> {
    ghost use Rattle.std.specs.Prelude.{List, ℕ, ◌++◌};

    ghost Value = { List ℕ };

    ghost view = { λ m. m.words ++ m.name.now ++ m.end.now };
}

/// Writes words and a name.
fn write_named<K: Sink>(words: &Line, name: &str, out: &mut K) -> Result<(), Failed>
    ensures { Sends (K.written out.old) (K.written out.new) (K.faults out.old) (K.faults out.new) result
        (words.now ++ name.now) }
{
    write_text(words.text(), out)?;
    write_text(name.as_bytes(), out)
}

/// Writes words, a name and an end.
fn write_parts<K: Sink>(words: &Line, name: &str, end: &[u8], out: &mut K) -> Result<(), Failed>
    ensures { Sends (K.written out.old) (K.written out.new) (K.faults out.old) (K.faults out.new) result
        (words.now ++ name.now ++ end.now) }
{
    write_named(words, name, out)?;
    write_text(end, out)
}

impl<'a> Message<'a> {
    /// A line about no file.
    pub fn alone(words: Line) -> Message<'a>
        ensures { result ≡ words }
    {
        Message {
            words,
            name: "",
            end: b"",
        }
    }

    /// These words and a name.
    pub(crate) fn about(words: Line, name: &'a str) -> Message<'a>
        ensures { result ≡ words ++ name.now ++ 10 ∷ [] }
    {
        Message {
            words,
            name,
            end: b"\n",
        }
    }

    /// Writes the line: the words, the name and the end, each if it has bytes.
    pub fn write<K: Sink>(&self, out: &mut K) -> Result<(), Failed>
        ensures { Sends (K.written out.old) (K.written out.new) (K.faults out.old) (K.faults out.new) result self.now }
    {
        write_parts(&self.words, self.name, self.end, out)
    }
}

/// These words as one line.
pub fn line_of(words: &str) -> Line
    requires { length words.now ≤ 64 }
    ensures { result ≡ line words.now }
{
    let mut line = Line::new();
    line.push(words.as_bytes());
    line.push(b"\n");
    line
}

/// These words and a file's name as one line.
pub fn about_file<'a>(words: &str, name: &'a str) -> Message<'a>
    requires { length words.now ≤ 64 }
    ensures { result ≡ line_about words.now name.now }
{
    let mut line = Line::new();
    line.push(words.as_bytes());
    line.push(b" ");
    Message::about(line, name)
}

/// `layout AT FIELD WHY NAME`: a field of the file is short or fails its test.
pub fn layout_line(fault: LayoutFault, name: &str) -> Message<'_>
    ensures { result ≡ layout_line fault name.now }
{
    let mut line = Line::new();
    line.push_count(b"layout ", fault.at);
    line.push(b" ");
    line.push(field_text(fault.field));
    line.push(b" ");
    line.push(why_text(fault.why));
    line.push(b" ");
    Message::about(line, name)
}

/// `crl RECORD FAULT NAME`: the CRL at this place of the job isn't accepted.
pub fn crl_line(place: u32, fault: CrlFault, name: &str) -> Message<'_>
    ensures { result ≡ crl_line place fault name.now }
{
    let mut line = Line::new();
    line.push_count(b"crl ", place as u64);
    line.push(b" ");
    line.push(crl_text(fault));
    line.push(b" ");
    Message::about(line, name)
}

/// `cert FAULT NAME`: the certificate isn't read, or its timestamps aren't.
pub fn cert_line(fault: CertFault, name: &str) -> Message<'_>
    ensures { result ≡ cert_line fault name.now }
{
    let mut line = Line::new();
    line.push(b"cert ");
    line.push(cert_text(fault));
    line.push(b" ");
    Message::about(line, name)
}

/// `page INDEX FAULT NAME`: the page isn't read, for this item of it.
pub fn page_line(fault: PageFault, name: &str) -> Message<'_>
    ensures { result ≡ page_line fault name.now }
{
    let mut line = Line::new();
    line.push_count(b"page ", fault.index() as u64);
    line.push(b" ");
    line.push(page_text(fault));
    line.push(b" ");
    Message::about(line, name)
}

/// `limit WHAT LIMIT NAME`: the job is past this limit.
pub fn limit_line(what: What, limit: u32, name: &str) -> Message<'_>
    ensures { result ≡ limit_line what limit name.now }
{
    let mut line = Line::new();
    line.push(b"limit ");
    line.push(what_text(what));
    line.push_count(b" ", limit as u64);
    line.push(b" ");
    Message::about(line, name)
}

/// `chain parent HELD GIVEN NAME`: the trailer of the part that is held, and the parent that the file gives.
pub fn parent_line<'a>(held: &Key32, given: &Key32, name: &'a str) -> Message<'a>
    ensures { result ≡ parent_line held.now given.now name.now }
{
    let mut line = Line::new();
    line.push(b"chain parent ");
    line.push_key(held);
    line.push(b" ");
    line.push_key(given);
    line.push(b" ");
    Message::about(line, name)
}

/// `chain epoch HELD GIVEN NAME`: the epoch of the part that is held, and the epoch that the file gives.
pub fn epoch_line(held: u64, given: u64, name: &str) -> Message<'_>
    ensures { result ≡ epoch_line held given name.now }
{
    let mut line = Line::new();
    line.push_count(b"chain epoch ", held);
    line.push_count(b" ", given);
    line.push(b" ");
    Message::about(line, name)
}

/// `chain coverage LOG NAME`: a range of this log isn't covered any more.
pub fn coverage_line<'a>(log: &Key32, name: &'a str) -> Message<'a>
    ensures { result ≡ coverage_line log.now name.now }
{
    let mut line = Line::new();
    line.push(b"chain coverage ");
    line.push_key(log);
    line.push(b" ");
    Message::about(line, name)
}
