//! Lines of text that are made without taking memory.

ghost use Rattle.std.specs.Prelude.{◌≡◌, ◌+◌, ◌*◌, ◌≤◌, [], ◌∷◌, ◌++◌, length, codes, decimal};
ghost use Rattle.hex.specs.Hex.{encode_lower};
ghost use Rattle.part_text.specs.PartText.{width_of};
ghost use Rattle.line_core.specs.Lines.{stage_words, approx_words, mixed_words, leaf_words, body_words, note_line, report_line};
ghost use Rattle.line_core.specs.Lines.{store_line, base_words, rebase_line, rebase_without_line, split_line, sample_line};
ghost use Rattle.line_core.specs.Lines.{longer_line, gather_line, merge_line, cut_line, place_line, audit_line};
ghost use Rattle.line_core.specs.Lines.{disagreement_line, verdict_line};
ghost use Rattle.line_core.specs.Lines.{head_line, range_line, block_line, shard_line, trailer_line};
ghost use Rattle.line_core.specs.Lines.{seeds_line};

use crate::words::{kind_text, verdict_text};
use card_core::{Block, Body, Leaf, Mixed, Stage, Verdict};
use ident_core::{Head, Range};
use octets_core::Key32;
use part_codec::PartNote;
use std::marker::Model;
use universe_core::Counts;

/// The most bytes of a line.
const ROOM: usize = 320;

/// What a line says of the base with which a chain begins anew.
#[derive(Debug, Drop)]
pub struct Base {
    pub epoch: u64,
    pub issuers: usize,
    /// How many identities it has.
    pub universe: usize,
    /// How many of these are revoked.
    pub revoked: usize,
    /// How many are left out, since they have expired.
    pub pruned: u32,
}

/// One line.
#[derive(Drop)]
pub struct Line {
    bytes: [u8; ROOM],
    len: usize,
}

impl Model for Line {
    ghost use Rattle.std.specs.Prelude.{List, ℕ, ◌≡◌, ◌≤◌, take, length};

    ghost Value = { List ℕ };

    ghost view = { λ l. take l.len l.bytes };

    ghost invariant = { λ l. (l.len ≤ 320) × (length l.bytes ≡ 320) };
}

impl Line {
    /// An empty line.
    pub(crate) fn new() -> Line
        ensures { result ≡ [] }
    {
        Line {
            bytes: [0; ROOM],
            len: 0,
        }
    }

    pub(crate) fn push(&mut self, piece: &[u8])
        requires { length self.old + length piece.now ≤ 320 }
        ensures value { self.new ≡ self.old ++ piece.now }
        ensures len { length self.new ≡ length self.old + length piece.now }
    {
        let end = self.len + piece.len();
        self.bytes[self.len..end].copy_from_slice(piece);
        self.len = end;
    }

    fn push_number(&mut self, n: u64)
        requires { length self.old + 20 ≤ 320 }
        ensures value { self.new ≡ self.old ++ decimal n }
        ensures len { length self.new ≤ length self.old + 20 }
    {
        let mut buffer = itoa::Buffer::new();
        self.push(buffer.format(n).as_bytes());
    }

    /// A word and a number.
    pub(crate) fn push_count(&mut self, word: &[u8], n: u64)
        requires { length self.old + length word.now + 20 ≤ 320 }
        ensures value { self.new ≡ self.old ++ word.now ++ decimal n }
        ensures len { length self.new ≤ length self.old + length word.now + 20 }
    {
        self.push(word);
        self.push_number(n);
    }

    pub(crate) fn push_key(&mut self, key: &Key32)
        requires { length self.old + 64 ≤ 320 }
        ensures value { self.new ≡ self.old ++ encode_lower key.now }
        ensures len { length self.new ≡ length self.old + 64 }
    {
        let mut text = [0u8; 64];
        let _ = hex::encode_to_slice(key.bytes(), &mut text);
        self.push(&text);
    }

    /// A stage's seed and how many starts it has.
    fn push_stage(&mut self, stage: &Stage)
        requires { length self.old + 41 ≤ 320 }
        ensures value { self.new ≡ self.old ++ stage_words stage.now }
        ensures len { length self.new ≤ length self.old + 41 }
    {
        self.push_number(stage.seed as u64);
        self.push(b" ");
        self.push_number(stage.planes.starts() as u64);
    }

    /// How many planes the approximate stage has, and the stage if there is one.
    fn push_approx(&mut self, mixed: &Mixed)
        requires { length self.old + 69 ≤ 320 }
        ensures value { self.new ≡ self.old ++ decimal (width_of mixed.now.approx) ++ approx_words mixed.now.approx }
        ensures len { length self.new ≤ length self.old + 69 }
    {
        match mixed.approx() {
            None => self.push_number(0),
            Some(stage) => {
                self.push_number(stage.planes.planes() as u64);
                self.push(b" approx ");
                self.push_stage(stage);
            }
        }
    }

    fn push_mixed(&mut self, mixed: &Mixed)
        requires { length self.old + 125 ≤ 320 }
        ensures value { self.new ≡ self.old ++ mixed_words mixed.now }
        ensures len { length self.new ≤ length self.old + 125 }
    {
        self.push(b"mixed k ");
        self.push_approx(mixed);
        self.push(b" exact ");
        self.push_stage(mixed.exact());
    }

    fn push_leaf(&mut self, leaf: &Leaf)
        requires { length self.old + 125 ≤ 320 }
        ensures value { self.new ≡ self.old ++ leaf_words leaf.now }
        ensures len { length self.new ≤ length self.old + 125 }
    {
        match leaf {
            Leaf::Clean => self.push(b"none"),
            Leaf::Every => self.push(b"all"),
            Leaf::Mixed(mixed) => self.push_mixed(mixed),
        }
    }

    fn push_body(&mut self, body: &Body)
        requires { length self.old + 125 ≤ 320 }
        ensures value { self.new ≡ self.old ++ body_words body.now }
        ensures len { length self.new ≤ length self.old + 125 }
    {
        match body {
            Body::Clean => self.push(b"none"),
            Body::Every => self.push(b"all"),
            Body::Mixed(mixed) => self.push_mixed(mixed),
            Body::Sharded(sharded) => self.push_count(b"sharded ", sharded.shift() as u64),
        }
    }

    fn push_base(&mut self, base: &Base)
        requires { length self.old + 143 ≤ 320 }
        ensures value { self.new ≡ self.old ++ base_words base.now }
        ensures len { length self.new ≤ length self.old + 143 }
    {
        self.push_count(b" epoch ", base.epoch);
        self.push_count(b" issuers ", base.issuers as u64);
        self.push_count(b" universe ", base.universe as u64);
        self.push_count(b" revoked ", base.revoked as u64);
        self.push_count(b" pruned ", base.pruned as u64);
    }

    /// The line's text.
    pub fn text(&self) -> &[u8]
        ensures { result.now ≡ self.now }
    {
        &self.bytes[..self.len]
    }
}

/// `part KIND epoch E ranges N issuers M bytes B`
pub fn checked(note: &PartNote) -> Line
    ensures { result ≡ note_line note.now }
{
    let mut line = Line::new();
    line.push(b"part ");
    line.push(kind_text(note.kind));
    line.push_count(b" epoch ", note.epoch);
    line.push_count(b" ranges ", note.ranges as u64);
    line.push_count(b" issuers ", note.issuers as u64);
    line.push_count(b" bytes ", note.length);
    line.push(b"\n");
    line
}

/// `epoch E part P issuers I universe U revoked R unread A uncovered B unenrolled C late D accepted F`
pub fn reported(epoch: u64, place: u32, counts: &Counts) -> Line
    ensures { result ≡ report_line epoch place counts.now }
{
    let mut line = Line::new();
    line.push_count(b"epoch ", epoch);
    line.push_count(b" part ", place as u64);
    line.push_count(b" issuers ", counts.issuers as u64);
    line.push_count(b" universe ", counts.universe as u64);
    line.push_count(b" revoked ", counts.revoked as u64);
    line.push_count(b" unread ", counts.unread as u64);
    line.push_count(b" uncovered ", counts.uncovered as u64);
    line.push_count(b" unenrolled ", counts.unenrolled as u64);
    line.push_count(b" late ", counts.late as u64);
    line.push_count(b" accepted ", counts.accepted as u64);
    line.push(b"\n");
    line
}

/// `store parts N epoch E`
pub fn stored(parts: usize, epoch: u64) -> Line
    ensures { result ≡ store_line parts epoch }
{
    let mut line = Line::new();
    line.push_count(b"store parts ", parts as u64);
    line.push_count(b" epoch ", epoch);
    line.push(b"\n");
    line
}

/// `rebase epoch E issuers I universe U revoked R pruned N`
pub fn rebased(base: &Base) -> Line
    ensures { result ≡ rebase_line base.now }
{
    let mut line = Line::new();
    line.push(b"rebase");
    line.push_base(base);
    line.push(b"\n");
    line
}

/// `rebase-without epoch E issuers I universe U revoked R pruned N left M`
pub fn rebased_without(base: &Base, left: u32) -> Line
    ensures { result ≡ rebase_without_line base.now left }
{
    let mut line = Line::new();
    line.push(b"rebase-without");
    line.push_base(base);
    line.push_count(b" left ", left as u64);
    line.push(b"\n");
    line
}

/// `split P of COUNT epoch E issuers I universe U revoked R pruned N left M`
pub fn split(place: u32, count: u32, base: &Base, left: u32) -> Line
    ensures { result ≡ split_line place count base.now left }
{
    let mut line = Line::new();
    line.push_count(b"split ", place as u64);
    line.push_count(b" of ", count as u64);
    line.push_base(base);
    line.push_count(b" left ", left as u64);
    line.push(b"\n");
    line
}

/// `sample NUMBER entries COUNT revoked R bytes B`
pub fn sampled(number: u64, count: u32, revoked: u32, bytes: u64) -> Line
    ensures { result ≡ sample_line number count revoked bytes }
{
    let mut line = Line::new();
    line.push_count(b"sample ", number);
    line.push_count(b" entries ", count as u64);
    line.push_count(b" revoked ", revoked as u64);
    line.push_count(b" bytes ", bytes);
    line.push(b"\n");
    line
}

/// These words and how many files there are, how many entries and how many bytes.
fn longer_line(words: &[u8], files: usize, entries: u64, bytes: u64) -> Line
    requires { length words.now ≤ 64 }
    ensures { result ≡ longer_line words.now files entries bytes }
{
    let mut line = Line::new();
    line.push_count(words, files as u64);
    line.push_count(b" entries ", entries);
    line.push_count(b" bytes ", bytes);
    line.push(b"\n");
    line
}

/// `gather pages P entries N bytes B`
pub fn gathered(pages: usize, entries: u64, bytes: u64) -> Line
    ensures { result ≡ gather_line pages entries bytes }
{
    longer_line(b"gather pages ", pages, entries, bytes)
}

/// `merge pieces P entries N bytes B`
pub fn merged(pieces: usize, entries: u64, bytes: u64) -> Line
    ensures { result ≡ merge_line pieces entries bytes }
{
    longer_line(b"merge pieces ", pieces, entries, bytes)
}

/// `cut pieces P entries N bytes B`
pub fn cut(pieces: usize, entries: u64, bytes: u64) -> Line
    ensures { result ≡ cut_line pieces entries bytes }
{
    longer_line(b"cut pieces ", pieces, entries, bytes)
}

/// `place P of COUNT`
pub fn placed(place: u32, count: u32) -> Line
    ensures { result ≡ place_line place count }
{
    let mut line = Line::new();
    line.push_count(b"place ", place as u64);
    line.push_count(b" of ", count as u64);
    line.push(b"\n");
    line
}

/// `audit jobs J entries N agree`
pub fn audited(jobs: usize, entries: u32) -> Line
    ensures { result ≡ audit_line jobs entries }
{
    let mut line = Line::new();
    line.push_count(b"audit jobs ", jobs as u64);
    line.push_count(b" entries ", entries as u64);
    line.push(b" agree\n");
    line
}

/// The line of a verdict.
pub fn verdict_line(verdict: Verdict) -> Line
    ensures { result ≡ verdict_line verdict }
{
    let mut line = Line::new();
    line.push(verdict_text(verdict));
    line.push(b"\n");
    line
}

/// `audit job J entry E held V truth W`
pub fn disagreement_line(job: u32, entry: u32, held: Verdict, truth: Verdict) -> Line
    ensures { result ≡ disagreement_line job entry held truth }
{
    let mut line = Line::new();
    line.push_count(b"audit job ", job as u64);
    line.push_count(b" entry ", entry as u64);
    line.push(b" held ");
    line.push(verdict_text(held));
    line.push(b" truth ");
    line.push(verdict_text(truth));
    line.push(b"\n");
    line
}

/// `seeds ISSUER STAGE`
pub fn seeds_line(issuer: &Key32, stage: u8) -> Line
    ensures { result ≡ seeds_line issuer.now stage }
{
    let mut line = Line::new();
    line.push(b"seeds ");
    line.push_key(issuer);
    line.push_count(b" ", stage as u64);
    line.push(b"\n");
    line
}

/// `part KIND version V epoch E parent KEY`
pub(crate) fn head_shown(version: u8, head: &Head) -> Line
    ensures { result ≡ head_line version head.now }
{
    let mut line = Line::new();
    line.push(b"part ");
    line.push(kind_text(head.kind()));
    line.push_count(b" version ", version as u64);
    line.push_count(b" epoch ", head.epoch());
    line.push(b" parent ");
    line.push_key(&head.parent());
    line.push(b"\n");
    line
}

/// `range LOG FROM TO`
pub(crate) fn range_shown(range: &Range) -> Line
    ensures { result ≡ range_line range.now }
{
    let mut line = Line::new();
    line.push(b"range ");
    line.push_key(&range.log);
    line.push_count(b" ", range.from);
    line.push_count(b" ", range.to);
    line.push(b"\n");
    line
}

/// `issuer KEY none`, `all`, `mixed k K approx SEED STARTS exact SEED STARTS`, or `sharded S`
pub(crate) fn block_shown(block: &Block) -> Line
    ensures { result ≡ block_line block.now }
{
    let mut line = Line::new();
    line.push(b"issuer ");
    line.push_key(&block.issuer);
    line.push(b" ");
    line.push_body(&block.body);
    line.push(b"\n");
    line
}

/// `shard I none`, `all`, or `mixed k K approx SEED STARTS exact SEED STARTS`
pub(crate) fn shard_shown(place: usize, leaf: &Leaf) -> Line
    ensures { result ≡ shard_line place leaf.now }
{
    let mut line = Line::new();
    line.push_count(b"shard ", place as u64);
    line.push(b" ");
    line.push_leaf(leaf);
    line.push(b"\n");
    line
}

/// `trailer KEY`
pub(crate) fn trailer_shown(trailer: &Key32) -> Line
    ensures { result ≡ trailer_line trailer.now }
{
    let mut line = Line::new();
    line.push(b"trailer ");
    line.push_key(trailer);
    line.push(b"\n");
    line
}
