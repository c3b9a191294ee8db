//! Reads a capture as it comes, however its reads cut it.
ghost use Rattle.std.specs.Prelude.{◌≡◌, ◌<◌, ◌+◌, ◌^◌, ◌++◌, [], ℕ, List, length, IfOk, IfErr, MatchOption};
ghost use Rattle.nntp_check.specs.Capture.{Held, Part, AreCapture, Captured, IsBadPiece, has_session, nothing, with_octets};
ghost use Rattle.nntp_check.specs.Inner.CaptureReading.{IsAt, IsInLine, IsOpen, HasCome, HasRead, HasRoomAt, HasRoomFor, CantGoOn, GoesOn, Reads, IsBadBehind};
ghost use Rattle.nntp_check.specs.Inner.CaptureReading.{captured, passed, reached};
ghost use Rattle.nntp_check.specs.declared.capture_reader.Passage.TheVariants.{From};
ghost use Rattle.nntp_check.specs.declared.capture_reader.Place.TheVariants.{Start, LetterS, LettersSe, Word, Digits, Octets};

use crate::source::Source;

/// How many digits a first line may have.
const MOST_DIGITS: u64 = 10;

/// Reads a capture as it comes, and keeps none of its octets.
#[derive(Drop)]
pub(crate) struct CaptureReader {
    /// The number of the piece, counted from 1.
    piece: u64,
    place: Place,
    /// Whether octets of a session came, or a piece that begins one.
    has_session: bool,
    /// Whether a piece came that begins a session.
    is_several: bool,
}

/// A place in a piece.
#[derive(Clone, Copy)]
enum Place {
    /// Before its first octet.
    Start,
    /// Behind the first letter of `server`, `session` or `spool`.
    LetterS,
    /// Behind the first two letters of `server` or `session`.
    LettersSe,
    /// Within the word of this source. This rest of it is still to come, with the space behind it.
    Word {
        source: Source,
        rest: &'static [u8],
    },
    /// Behind so many digits, which write this value.
    Digits {
        source: Source,
        many: u64,
        value: u64,
    },
    /// Within its octets: so many are still to come.
    Octets {
        source: Source,
        left: u64,
    },
}

/// What octets of a capture are.
#[derive(Clone, Copy)]
pub(crate) enum Passage {
    /// Of the first line of a piece.
    FirstLine,
    /// The end of the first line of a piece that begins a session, behind another one.
    NextSession,
    /// Of a source.
    From(Source),
}

/// What a reader took.
#[derive(Clone, Copy)]
pub(crate) struct Taken<'a> {
    pub passage: Passage,
    pub octets: &'a [u8],
    /// The octets behind them.
    pub rest: &'a [u8],
}

/// The piece of this number, counted from 1, is none.
#[derive(Clone, Copy)]
pub(crate) struct BadPiece {
    pub piece: u64,
}

impl CaptureReader {
    /// A reader to which nothing has come.
    pub(crate) fn new() -> CaptureReader
        ensures { HasRead result [] nothing }
    {
        CaptureReader {
            piece: 1,
            place: Place::Start,
            has_session: false,
            is_several: false,
        }
    }

    /// Takes a front of the octets that came next. The piece is bad at the first octet with which what came of it is
    /// the front of none.
    pub(crate) fn take<'a>(&mut self, octets: &'a [u8]) -> Result<Taken<'a>, BadPiece>
        requires some { 0 < length octets.now }
        requires room { HasRoomFor self.old octets.now }
        ensures cut { IfOk result (λ taken. (octets.now ≡ taken.octets.now ++ taken.rest.now) × (length taken.rest.now < length octets.now)) }
        ensures read { IfOk result (λ taken. Reads self.old self.new taken.passage taken.octets.now) }
        ensures bad { IfErr result (λ bad. IsBadBehind self.old octets.now bad.piece) }
    {
        match self.place {
            Place::Octets { source, left } => Ok(self.take_octets(source, left, octets)),
            _ => self.take_octet(octets),
        }
    }

    /// Takes an octet of a first line.
    fn take_octet<'a>(&mut self, octets: &'a [u8]) -> Result<Taken<'a>, BadPiece>
        requires line { IsInLine self.old.place }
        requires some { 0 < length octets.now }
        requires room { HasRoomFor self.old octets.now }
        ensures cut { IfOk result (λ taken. (octets.now ≡ taken.octets.now ++ taken.rest.now) × (length taken.rest.now < length octets.now)) }
        ensures read { IfOk result (λ taken. Reads self.old self.new taken.passage taken.octets.now) }
        ensures bad { IfErr result (λ bad. IsBadBehind self.old octets.now bad.piece) }
    {
        let (front, rest) = octets.split_at(1);
        let Some(next) = behind(self.place, front[0]) else {
            return Err(BadPiece { piece: self.piece });
        };
        let passage = self.passage_to(next);
        self.go_to(next);
        Ok(Taken {
            passage,
            octets: front,
            rest,
        })
    }

    /// What the octet is that leads from a first line to a place. A session that it begins is noted.
    fn passage_to(&mut self, next: Place) -> Passage
        ensures piece { self.new.piece ≡ self.old.piece }
        ensures noted { (held : Held) (octets : List ℕ) → self.old.has_session ≡ has_session (captured self.old held)
            → (captured self.new (passed result octets held) ≡ reached next (captured self.old held))
            × (self.new.has_session ≡ has_session (reached next (captured self.old held))) }
    {
        let Place::Octets {
            source: Source::Session,
            ..
        } = next
        else {
            return Passage::FirstLine;
        };
        let passage = if self.has_session {
            Passage::NextSession
        } else {
            Passage::FirstLine
        };
        self.has_session = true;
        self.is_several = true;
        passage
    }

    /// Takes octets of a source, of which so many are still to come.
    fn take_octets<'a>(&mut self, source: Source, left: u64, octets: &'a [u8]) -> Taken<'a>
        requires place { self.old.place ≡ Octets source left }
        requires open { 0 < left }
        requires some { 0 < length octets.now }
        requires room { HasRoomFor self.old octets.now }
        ensures cut { (octets.now ≡ result.octets.now ++ result.rest.now) × (length result.rest.now < length octets.now) }
        ensures read { Reads self.old self.new (From source) result.octets.now }
        ensures passage { result.passage ≡ From source }
    {
        let count = (octets.len() as u64).min(left);
        let (front, rest) = octets.split_at(count as usize);
        self.note(source);
        self.go_to(Place::Octets {
            source,
            left: left - count,
        });
        Taken {
            passage: Passage::From(source),
            octets: front,
            rest,
        }
    }

    /// Notes that octets of a source came: those of a side are of a session.
    fn note(&mut self, source: Source)
        ensures noted { (held : Held) (front : List ℕ) → 0 < length front → self.old.has_session ≡ has_session (captured self.old held)
            → self.new.has_session ≡ has_session (captured self.old (with_octets source front held)) }
        ensures rest { self.new ≡ record self.old { has_session = self.new.has_session } }
    {
        match source {
            Source::Client | Source::Server => self.has_session = true,
            Source::Spool | Source::Session => {}
        }
    }

    /// Goes on to a place; where no octet of the piece is left, to the start of the next piece.
    fn go_to(&mut self, place: Place)
        requires room { HasRoomAt self.old.piece place [] }
        ensures come { (came : List ℕ) (c : Captured) → HasCome self.old.piece place came c → HasCome self.new.piece self.new.place came c }
        ensures is_open { IsOpen self.new.place }
        ensures sessions { (self.new.has_session ≡ self.old.has_session) × (self.new.is_several ≡ self.old.is_several) }
    {
        if let Place::Octets { left: 0, .. } = place {
            self.piece += 1;
            self.place = Place::Start;
        } else {
            self.place = place;
        }
    }

    /// Where no more octets come: whether a piece began a session. A piece that has begun and isn't whole is bad.
    pub(crate) fn finish(&self) -> Result<bool, BadPiece>
        ensures whole { IfOk result (λ is_several. (came : List ℕ) (held : Held) → HasRead self.now came held
            → AreCapture came (record { held = held; is_several = is_several })) }
        ensures bad { IfErr result (λ bad. (came : List ℕ) (held : Held) → HasRead self.now came held → IsBadPiece came bad.piece) }
    {
        match self.place {
            Place::Start => Ok(self.is_several),
            _ => Err(BadPiece { piece: self.piece }),
        }
    }
}

/// The place behind the next octet of a first line. None: no first line goes on with it.
fn behind(place: Place, octet: u8) -> Option<Place>
    requires { (line : List ℕ) × (begun : List Part) × IsAt place line begun }
    ensures { MatchOption result (CantGoOn place octet) (GoesOn place octet) }
{
    match place {
        Place::Start => behind_nothing(octet),
        Place::LetterS => behind_letter_s(octet),
        Place::LettersSe => behind_letters_se(octet),
        Place::Word { source, rest } => behind_letters(source, rest, octet),
        Place::Digits {
            source,
            many,
            value,
        } => behind_digits(source, many, value, octet),
        Place::Octets { .. } => None,
    }
}

/// The place behind the first octet of a piece.
fn behind_nothing(octet: u8) -> Option<Place>
    ensures { MatchOption result (CantGoOn Start octet) (GoesOn Start octet) }
{
    match octet {
        b'c' => Some(Place::Word {
            source: Source::Client,
            rest: b"lient ",
        }),
        b's' => Some(Place::LetterS),
        _ => None,
    }
}

/// The place behind the second letter of `server`, `session` or `spool`.
fn behind_letter_s(octet: u8) -> Option<Place>
    ensures { MatchOption result (CantGoOn LetterS octet) (GoesOn LetterS octet) }
{
    match octet {
        b'e' => Some(Place::LettersSe),
        b'p' => Some(Place::Word {
            source: Source::Spool,
            rest: b"ool ",
        }),
        _ => None,
    }
}

/// The place behind the third letter of `server` or `session`.
fn behind_letters_se(octet: u8) -> Option<Place>
    ensures { MatchOption result (CantGoOn LettersSe octet) (GoesOn LettersSe octet) }
{
    match octet {
        b'r' => Some(Place::Word {
            source: Source::Server,
            rest: b"ver ",
        }),
        b's' => Some(Place::Word {
            source: Source::Session,
            rest: b"sion ",
        }),
        _ => None,
    }
}

/// The place behind one octet more of a word, of which this rest was to come.
fn behind_letters(source: Source, rest: &'static [u8], octet: u8) -> Option<Place>
    ensures { MatchOption result (CantGoOn (Word source rest.entry) octet) (GoesOn (Word source rest.entry) octet) }
{
    let (first, rest) = rest.split_first()?;
    if octet != *first {
        return None;
    }
    if rest.is_empty() {
        return Some(Place::Digits {
            source,
            many: 0,
            value: 0,
        });
    }
    Some(Place::Word { source, rest })
}

/// The place behind one octet more than so many digits of this value.
fn behind_digits(source: Source, many: u64, value: u64, octet: u8) -> Option<Place>
    requires { value < 10 ^ 11 }
    ensures { MatchOption result (CantGoOn (Digits source many value) octet) (GoesOn (Digits source many value) octet) }
{
    if octet == b'\n' {
        return if many == 0 {
            None
        } else {
            Some(Place::Octets {
                source,
                left: value,
            })
        };
    }
    if !octet.is_ascii_digit() || many >= MOST_DIGITS {
        return None;
    }
    Some(Place::Digits {
        source,
        many: many + 1,
        value: value * 10 + u64::from(octet - b'0'),
    })
}
