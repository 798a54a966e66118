//! The names that are asked for, each with a number.

ghost use Rattle.std.specs.Prelude.{◌≡◌, bytes_eq, if◌then◌else◌};
ghost use Rattle.redl_tree.specs.Roles.Idle.{is_idle_name as is_idle};
ghost use Rattle.redl_tree.specs.Roles.Words.{number, place, number_by_place, number_among, number_in as number_in_space, words};

use crate::kinds::Space;

/// A local name of WordprocessingML that some definition asks for. A variant is spelled like its name.
#[derive(Clone, Copy, Debug, PartialEq, Eq)]
pub enum Word {
    P = 1,
    R = 2,
    Tr = 3,
    Tc = 4,
    Tbl = 5,
    Ins = 6,
    Del = 7,
    Sdt = 8,
    Hdr = 9,
    Ftr = 10,
    PPr = 11,
    RPr = 12,
    Body = 13,
    TrPr = 14,
    TcPr = 15,
    TblPr = 16,
    SdtPr = 17,
    TblGrid = 18,
    SectPr = 19,
    TblPrEx = 20,
    MoveFrom = 21,
    MoveTo = 22,
    CustomXml = 23,
    SdtContent = 24,
    SdtEndPr = 25,
    TxbxContent = 26,
    AltChunk = 27,
    Comment = 28,
    Comments = 29,
    Footnote = 30,
    Footnotes = 31,
    Endnote = 32,
    Endnotes = 33,
    Document = 34,
    CellIns = 35,
    CellDel = 36,
    CellMerge = 37,
    DelText = 38,
    DelInstrText = 39,
    HeaderReference = 40,
    FooterReference = 41,
    RPrChange = 42,
    PPrChange = 43,
    SectPrChange = 44,
    TblPrChange = 45,
    TblPrExChange = 46,
    TrPrChange = 47,
    TcPrChange = 48,
    MoveFromRangeStart = 49,
    MoveFromRangeEnd = 50,
    MoveToRangeStart = 51,
    MoveToRangeEnd = 52,
}

impl Word {
    // Its number, from 1.
    #[inline(always)]
    pub(crate) fn number(self) -> u8
        ensures { result ≡ number self }
    {
        self as u8
    }
}

// A number below 256 for a name, from its first, second and last byte and its length. No two words have the same one.
fn place_of(name: &[u8]) -> usize
    ensures { result ≡ place name.now }
{
    let Some(last) = name.last() else {
        return 0;
    };
    let second = match name.get(1) {
        Some(second) => *second as usize,
        None => 0,
    };
    (155 * name[0] as usize + 80 * second + 125 * *last as usize + 183 * (name.len() & 255)) & 255
}

#[inline(always)]
fn number_if(name: &[u8], own: &[u8], word: Word) -> u8
    ensures { result ≡ (if bytes_eq name.now own.now then number word else 0) }
{
    if name == own { word.number() } else { 0 }
}

// The number of the word with this name, or 0 where none has it.
fn number_of(name: &[u8]) -> u8
    ensures { result ≡ number_by_place words (place name.now) name.now }
{
    match place_of(name) {
        55 => number_if(name, b"p", Word::P),
        103 => number_if(name, b"r", Word::R),
        244 => number_if(name, b"tr", Word::Tr),
        241 => number_if(name, b"tc", Word::Tc),
        189 => number_if(name, b"tbl", Word::Tbl),
        63 => number_if(name, b"ins", Word::Ins),
        253 => number_if(name, b"del", Word::Del),
        170 => number_if(name, b"sdt", Word::Sdt),
        7 => number_if(name, b"hdr", Word::Hdr),
        209 => number_if(name, b"ftr", Word::Ftr),
        159 => number_if(name, b"pPr", Word::PPr),
        213 => number_if(name, b"rPr", Word::RPr),
        247 => number_if(name, b"body", Word::Body),
        98 => number_if(name, b"trPr", Word::TrPr),
        178 => number_if(name, b"tcPr", Word::TcPr),
        25 => number_if(name, b"tblPr", Word::TblPr),
        30 => number_if(name, b"sdtPr", Word::SdtPr),
        177 => number_if(name, b"tblGrid", Word::TblGrid),
        37 => number_if(name, b"sectPr", Word::SectPr),
        117 => number_if(name, b"tblPrEx", Word::TblPrEx),
        160 => number_if(name, b"moveFrom", Word::MoveFrom),
        44 => number_if(name, b"moveTo", Word::MoveTo),
        172 => number_if(name, b"customXml", Word::CustomXml),
        171 => number_if(name, b"sdtContent", Word::SdtContent),
        67 => number_if(name, b"sdtEndPr", Word::SdtEndPr),
        61 => number_if(name, b"txbxContent", Word::TxbxContent),
        114 => number_if(name, b"altChunk", Word::AltChunk),
        70 => number_if(name, b"comment", Word::Comment),
        128 => number_if(name, b"comments", Word::Comments),
        123 => number_if(name, b"footnote", Word::Footnote),
        8 => number_if(name, b"footnotes", Word::Footnotes),
        217 => number_if(name, b"endnote", Word::Endnote),
        102 => number_if(name, b"endnotes", Word::Endnotes),
        152 => number_if(name, b"document", Word::Document),
        169 => number_if(name, b"cellIns", Word::CellIns),
        62 => number_if(name, b"cellDel", Word::CellDel),
        65 => number_if(name, b"cellMerge", Word::CellMerge),
        193 => number_if(name, b"delText", Word::DelText),
        84 => number_if(name, b"delInstrText", Word::DelInstrText),
        146 => number_if(name, b"headerReference", Word::HeaderReference),
        124 => number_if(name, b"footerReference", Word::FooterReference),
        198 => number_if(name, b"rPrChange", Word::RPrChange),
        144 => number_if(name, b"pPrChange", Word::PPrChange),
        22 => number_if(name, b"sectPrChange", Word::SectPrChange),
        10 => number_if(name, b"tblPrChange", Word::TblPrChange),
        120 => number_if(name, b"tblPrExChange", Word::TblPrExChange),
        83 => number_if(name, b"trPrChange", Word::TrPrChange),
        163 => number_if(name, b"tcPrChange", Word::TcPrChange),
        49 => number_if(name, b"moveFromRangeStart", Word::MoveFromRangeStart),
        243 => number_if(name, b"moveFromRangeEnd", Word::MoveFromRangeEnd),
        195 => number_if(name, b"moveToRangeStart", Word::MoveToRangeStart),
        133 => number_if(name, b"moveToRangeEnd", Word::MoveToRangeEnd),
        _ => 0,
    }
}

/// The number of the word that a local name in this namespace is, or 0 where it is none.
pub(crate) fn number_in(space: Space, name: &[u8]) -> u8
    ensures { result ≡ number_in_space space name.now }
{
    match space {
        Space::W => number_of(name),
        _ => 0,
    }
}

/// Whether an element of WordprocessingML with this local name is idle, if it is in no revision and all in it is idle. `in_run`:
/// its parent is a run.
pub fn is_idle_name(name: &[u8], in_run: bool) -> bool
    ensures { result ≡ is_idle in_run name.now }
{
    let number = number_in(Space::W, name);
    number == 0 || number == Word::R.number() || (number == Word::RPr.number() && in_run)
}
