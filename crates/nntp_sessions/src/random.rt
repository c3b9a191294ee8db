//! Exchanges made by a fixed seed, over two groups, a few numbers and a few ids.
use std::alloc::{AllocError, Global};

/// Numbers that look random, and are the same each time.
#[derive(Drop)]
pub struct Random {
    state: u64,
    /// Article numbers are this one and the next few.
    base: u64,
}

/// Numbers below those that random sessions have: 0, and one shortly below the narrow limit.
pub const BASES: [u64; 2] = [0, 2_147_483_642];

/// Commands and answers, `/` between their lines. `$g` is a group, `$n` a number and `$i` an id, the same
/// each time; `$m` is any number, `$j` any id, `$M` are marks, `$L` is a list, `$R` a range, `$H` a head and
/// `$W` a wildmat. `#` and a digit are the number that is so far above the base.
const EXCHANGES: [(&str, &str); 56] = [
    ("GROUP $g", "211 $M $g"),
    ("GROUP $g", "211 $M $g"),
    ("GROUP $g", "211 $M $g"),
    ("GROUP $g", "411 no"),
    ("LISTGROUP $g", "211 $M $g/$L."),
    ("LISTGROUP $g $R", "211 $M $g/$L."),
    ("LISTGROUP $g $R", "211 $M $g/."),
    ("LISTGROUP $g $n", "211 $M $g/$n/."),
    ("LISTGROUP", "211 $M $g/$L."),
    ("LISTGROUP", "412 no"),
    ("LISTGROUP $g", "411 no"),
    ("NEXT", "223 $n $i"),
    ("NEXT", "223 $n $i"),
    ("NEXT", "223 $n $i"),
    ("NEXT", "223 $n $j"),
    ("NEXT", "421 no"),
    ("NEXT", "421 no"),
    ("NEXT", "420 no"),
    ("NEXT", "412 no"),
    ("LAST", "223 $n $i"),
    ("LAST", "223 $n $i"),
    ("LAST", "223 $n $j"),
    ("LAST", "422 no"),
    ("LAST", "422 no"),
    ("LAST", "420 no"),
    ("LAST", "412 no"),
    ("STAT $n", "223 $n $i"),
    ("STAT $n", "223 $n $i"),
    ("STAT $n", "223 $m $i"),
    ("STAT $n", "423 no"),
    ("STAT $n", "423 no"),
    ("STAT $n", "412 no"),
    ("STAT", "223 $n $i"),
    ("STAT", "223 $n $i"),
    ("STAT", "223 $n $j"),
    ("STAT", "420 no"),
    ("STAT", "412 no"),
    ("STAT $i", "223 0 $i"),
    ("STAT $i", "223 $n $i"),
    ("STAT $i", "430 no"),
    ("STAT $j", "430 no"),
    ("HEAD $i", "221 0 $i/$H/."),
    ("HEAD $n", "221 $n $i/$H/."),
    ("HEAD", "221 $n $i/$H/."),
    ("BODY $i", "222 0 $i/one/."),
    ("BODY $n", "222 $n $i/$m/."),
    ("BODY", "222 $n $i/."),
    ("ARTICLE $i", "220 0 $i/$H//one/."),
    ("ARTICLE $n", "220 $n $i/$H//."),
    ("ARTICLE", "220 $n $i/$H//$m/."),
    ("LIST", "215 list/$g #5 #1 y/."),
    ("LIST ACTIVE $W", "215 list/$g #5 #1 y/."),
    ("LIST ACTIVE $W", "215 list/g #6 #1 y/h #5 #2 y/."),
    ("LIST ACTIVE $W", "215 list/."),
    ("DATE", "111 20261122"),
    ("HELP", "503 no"),
];

const MARKS: [&str; 9] = [
    "3 #1 #5", "2 #1 #5", "5 #1 #6", "4 #2 #6", "1 #1 #5", "0 #1 #0", "2 #3 #6", "1 #4 #4", "0 0 0",
];

const NUMBERS: [&str; 6] = ["#1", "#2", "#3", "#4", "#5", "#6"];

const IDS: [&str; 6] = [
    "<a@b>",
    "<b@x>",
    "<w0@invented.invalid>",
    "<c@x>",
    "<d@x>",
    "<w2@invented.invalid>",
];

const LISTS: [&str; 7] = [
    "#1/#2/#3/#4/#5/",
    "#2/#4/",
    "#3/",
    "#1/#5/",
    "#4/#5/",
    "#2/#3/#4/#6/",
    "",
];

const RANGES: [&str; 5] = ["#2-#4", "#3-", "#4-#9", "#5-#2", "#1-#3"];

const HEADS: [&str; 3] = ["Subject: one", "Subject: two", "Subject: one/X: y"];

const WILDMATS: [&str; 5] = ["g", "h*", "*", "*,!h", "x"];

/// What the letters of one exchange stand for.
#[derive(Clone, Copy)]
struct Letters {
    group: &'static str,
    number: &'static str,
    id: &'static str,
}

impl Random {
    pub fn new(seed: u64, base: u64) -> Random {
        Random { state: seed, base }
    }

    /// A number below the bound, or 0.
    pub fn below(&mut self, bound: usize) -> usize {
        self.state = self
            .state
            .wrapping_mul(6_364_136_223_846_793_005)
            .wrapping_add(1_442_695_040_888_963_407);
        ((self.state >> 33) as usize)
            .checked_rem(bound)
            .unwrap_or(0)
    }

    fn pick(&mut self, words: &[&'static str]) -> &'static str {
        let index = self.below(words.len());
        words.get(index).copied().unwrap_or("")
    }

    /// Adds a command and an answer to both streams.
    fn exchange(
        &mut self,
        alloc: Global,
        client: &mut Vec<u8>,
        server: &mut Vec<u8>,
    ) -> Result<(), AllocError> {
        let index = self.below(EXCHANGES.len());
        let (command, answer) = EXCHANGES.get(index).copied().unwrap_or(("QUIT", "205 bye"));
        let place = self.below(NUMBERS.len());
        let letters = Letters {
            group: self.pick(&["g", "g", "h"]),
            number: NUMBERS.get(place).copied().unwrap_or("1"),
            id: IDS.get(place).copied().unwrap_or("<a@b>"),
        };
        self.write(alloc, client, command, letters)?;
        self.write(alloc, server, answer, letters)
    }

    /// Writes lines, and something for each letter behind `$`.
    fn write(
        &mut self,
        alloc: Global,
        stream: &mut Vec<u8>,
        lines: &str,
        letters: Letters,
    ) -> Result<(), AllocError> {
        let mut text = Vec::new(alloc);
        let mut is_letter = false;
        for octet in lines.as_bytes() {
            if is_letter {
                text.extend_from_slice(self.text(*octet, letters).as_bytes())?;
            } else if *octet != b'$' {
                text.push(*octet)?;
            }
            is_letter = *octet == b'$';
        }
        text.push(b'/')?;
        put_lines(alloc, stream, self.base, &text)
    }

    /// What a letter stands for.
    fn text(&mut self, letter: u8, letters: Letters) -> &'static str {
        match letter {
            b'g' => letters.group,
            b'n' => letters.number,
            b'i' => letters.id,
            b'm' => self.pick(&NUMBERS),
            b'j' => self.pick(&IDS),
            b'M' => self.pick(&MARKS),
            b'L' => self.pick(&LISTS),
            b'R' => self.pick(&RANGES),
            b'H' => self.pick(&HEADS),
            b'W' => self.pick(&WILDMATS),
            _ => "",
        }
    }
}

/// Writes octets, CRLF for each `/`, and for `#` and a digit the number that is so far above the base.
fn put_lines(
    alloc: Global,
    stream: &mut Vec<u8>,
    base: u64,
    octets: &[u8],
) -> Result<(), AllocError> {
    let mut is_number = false;
    for octet in octets {
        if is_number {
            let above = u64::from(octet.saturating_sub(b'0'));
            let number = base.saturating_add(above);
            stream.extend_from_slice(format!(in alloc; "{number}")?.as_bytes())?;
        } else if *octet == b'/' {
            stream.extend_from_slice(b"\r\n")?;
        } else if *octet != b'#' {
            stream.push(*octet)?;
        }
        is_number = *octet == b'#';
    }
    Ok(())
}

/// A session that goes on at random, and whose last exchange can be taken back.
#[derive(Drop)]
pub struct Wandering {
    client: Vec<u8>,
    server: Vec<u8>,
    /// How many octets of each stream come before the last exchange.
    asked: usize,
    answered: usize,
}

impl Wandering {
    /// A greeting.
    pub fn new(alloc: Global) -> Result<Wandering, AllocError> {
        Ok(Wandering {
            client: Vec::new(alloc),
            server: Vec::from_slice(alloc, b"200 hi\r\n")?,
            asked: 0,
            answered: 0,
        })
    }

    /// Adds an exchange.
    pub fn go_on(&mut self, alloc: Global, random: &mut Random) -> Result<(), AllocError> {
        self.asked = self.client.len();
        self.answered = self.server.len();
        random.exchange(alloc, &mut self.client, &mut self.server)
    }

    /// Takes the last exchange back.
    pub fn go_back(&mut self) {
        self.client.truncate(self.asked);
        self.server.truncate(self.answered);
    }

    /// What the client sent, and what the server sent.
    pub fn streams(&self) -> (&[u8], &[u8]) {
        (self.client.as_slice(), self.server.as_slice())
    }
}
