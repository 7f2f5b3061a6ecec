// SWIFT's fields 59a, 32B and 70 for a bill that an edition accepts.

#![tactic(auto)]

ghost use Rattle.std.specs.Prelude.{◌≡◌, true, not, [], ◌++◌, ◌+◌, ◌≤◌, ◌<◌, length};
ghost use Rattle.sieve.specs.Bytes.{within};
ghost use Rattle.sieve.specs.Lines.{cut, lines_of};
ghost use Rattle.sieve.specs.Places.{walk_lines};
ghost use Rattle.sieve.specs.Rules.{line};
ghost use Rattle.swiss.specs.Forms.{amount};
ghost use Rattle.swiss.specs.Swiss.{swiss_in};
ghost use Rattle.swift.specs.Letters.{in_x};
ghost use Rattle.swift.specs.Rowed.{AreShort, RowFits, IsFilled, IsLineBegun, Lined, IsLineOf, IsAdded, SmallLine, IsRows};
ghost use Rattle.swift.specs.Paged.{Ready, IsLaid, IsPut, AllFillable, AreLaid, IsRemittedOn, Open, IsBlank, Payable, AreMade};
ghost use Rattle.swift.specs.Paged.{IsFollowedBy, IsTextLaid, IsLineLaid, IsReferenceLaid};
ghost use Rattle.swift.specs.Fields.{street_text, town_text, street_line, town_line, structured_lines, combined_address};
ghost use Rattle.swift.specs.Fields.{combined_lines, beneficiary, with_comma, transaction, remittance};
ghost use Rattle.swift.specs.Answering.{IsMapped, IsMappedBill};

use places::Payload;
use runs::{characters, lay, same};
use sieve::{Fault, WALK_NUMBERS};
use swiss::Edition;
use swiss_judge::judge_in;

// What is told of the fields that were laid.
#[derive(Clone, Copy)]
pub struct Counts {
    pub bytes: usize,
    // lines of each field
    pub beneficiary: usize,
    pub transaction: usize,
    pub remittance: usize,
    // characters cut, and characters kept that were replaced
    pub cut: usize,
    pub replaced: usize,
}

// The x set, a bit for each byte: space / - ? : ( ) . , ' + and 0-9 are below 64, A-Z and a-z from there on.
const BELOW_64: u64 = 0x87FFFB8100000000;

const FROM_64: u64 = 0x7FFFFFE07FFFFFE;

// Whether a byte is of the x set.
fn in_x(x: u8) -> bool
    ensures { result ≡ in_x x }
{
    let high = if x < 128 { FROM_64 } else { 0 };
    let set = if x < 64 { BELOW_64 } else { high };
    (set >> (x % 64) as u64) % 2 == 1
}

// Whether a byte begins a character.
fn begins(x: u8) -> bool
    ensures { result ≡ not (within 0x80 0xBF x) }
{
    !((0x80 <= x) & (x <= 0xBF))
}

// A line while it is filled: its bytes, how many they are, and how many of them stand for another character.
#[derive(Clone, Copy)]
struct Row {
    bytes: [u8; 35],
    length: usize,
    replaced: usize,
}

// A row, and where in a text its filling stopped.
#[derive(Clone, Copy)]
struct Filled {
    row: Row,
    at: usize,
}

// Puts the characters of a text, from a place on, behind those of a row, until the row is full or the text ends. A full stop
// stands for one that is outside the x set.
fn fill(row: Row, text: &[u8], from: usize) -> Filled
    requires { RowFits row × (from ≤ length text.now) }
    ensures { IsFilled row text.now from result }
{
    let mut bytes = row.bytes;
    let mut length = row.length;
    let mut replaced = row.replaced;
    for at in from..text.len() {
        if length == 35 {
            let row = Row {
                bytes,
                length,
                replaced,
            };
            return Filled { row, at };
        }
        let x = text[at];
        if in_x(x) {
            bytes[length] = x;
            length += 1;
        } else {
            if begins(x) {
                bytes[length] = b'.';
                length += 1;
                replaced += 1;
            }
        }
    }
    let row = Row {
        bytes,
        length,
        replaced,
    };
    Filled {
        row,
        at: text.len(),
    }
}

// A row that is not empty, as a line: a colon or hyphen that begins it becomes a full stop.
fn begun(row: Row) -> Row
    requires { RowFits row × (0 < row.length) }
    ensures { IsLineBegun row result }
{
    let bytes = row.bytes;
    let first = bytes[0];
    if (first == b':') | (first == b'-') {
        let mut line = row;
        line.bytes[0] = b'.';
        line.replaced = row.replaced + 1;
        return line;
    }
    row
}

// A line of field 59a or 32B while it is filled: its row, and how many characters did not find room in it.
#[derive(Clone, Copy)]
struct Line {
    row: Row,
    cut: usize,
}

// A line with no characters.
fn no_characters() -> Line
    ensures { SmallLine result 0 × Lined result [] }
{
    let row = Row {
        bytes: [0; 35],
        length: 0,
        replaced: 0,
    };
    Line { row, cut: 0 }
}

// Puts the characters of a text behind those of a line, and counts those that find no room.
fn add(line: Line, text: &[u8]) -> Line
    requires { SmallLine line 8192 × (length text.now ≤ 1024) }
    ensures { IsAdded line text.now result }
{
    let filled = fill(line.row, text, 0);
    let cut = line.cut + characters(&text[filled.at..]);
    Line {
        row: filled.row,
        cut,
    }
}

// How far a page of lines is laid: its bytes, its lines, the characters that stand for others, and those that were cut.
#[derive(Clone, Copy)]
struct Page {
    at: usize,
    lines: usize,
    replaced: usize,
    cut: usize,
}

// A line with a text behind its prefix.
fn prefixed_line(prefix: &[u8], text: &[u8]) -> Line
    requires { (length prefix.now ≤ 1024) × (length text.now ≤ 1024) }
    ensures { IsLineOf (prefix.now ++ text.now) result 2048 }
{
    let line = add(no_characters(), prefix);
    add(line, text)
}

// The line of street and number: a space joins them only if both are there; without either it has no characters.
fn street_line(street: &[u8], number: &[u8]) -> Line
    requires { (length street.now ≤ 1024) × (length number.now ≤ 1024) }
    ensures { IsLineOf (street_text street.now number.now) result 8192 }
{
    if number.len() == 0 {
        if street.len() == 0 {
            return no_characters();
        }
        return prefixed_line(b"2/", street);
    }
    if street.len() == 0 {
        return prefixed_line(b"2/", number);
    }
    let line = prefixed_line(b"2/", street);
    let line = add(line, b" ");
    add(line, number)
}

// The line of country, postcode and town.
fn town_line(country: &[u8], postcode: &[u8], town: &[u8]) -> Line
    requires { AreShort country.now postcode.now town.now }
    ensures { IsLineOf (town_text country.now postcode.now town.now) result 8192 }
{
    let line = prefixed_line(b"3/", country);
    let line = add(line, b"/");
    let line = add(line, postcode);
    let line = add(line, b" ");
    add(line, town)
}

// The line of currency and amount, with a comma for the point.
fn amount_line(currency: &[u8], paid: &[u8]) -> Line
    requires { (length currency.now ≤ 1024) × (length paid.now ≤ 1024) × (amount paid.now ≡ true) }
    ensures { IsLineOf (currency.now ++ with_comma paid.now) result 8192 }
{
    let n = paid.len();
    let point = n - 3;
    let cents = n - 2;
    let line = prefixed_line(currency, &paid[0..point]);
    let line = add(line, b",");
    add(line, &paid[cents..n])
}

// Four rows of 35 characters, and where in the message their filling stopped.
#[derive(Clone, Copy)]
struct FourRows {
    rows: [Row; 4],
    at: usize,
}

// The four rows of field 70: those before row `first` hold the reference, and the message fills the others in turn.
fn fill_rows(reference: Row, first: usize, message: &[u8]) -> FourRows
    requires { RowFits reference × (first ≤ 1) }
    ensures { IsRows reference first message.now result }
{
    let none = no_characters();
    let empty = none.row;
    let mut rows = [reference; 4];
    let mut at = 0;
    for i in first..4 {
        let filled = fill(empty, message, at);
        at = filled.at;
        rows[i] = filled.row;
    }
    FourRows { rows, at }
}

// The fields of a bill while they are laid: room for their ten lines, and how far they are laid in it.
#[derive(Drop)]
struct Draft {
    room: [u8; 370],
    page: Page,
}

impl Draft {
    // A draft with nothing on it.
    fn blank() -> Draft
        ensures { IsBlank result }
    {
        Draft {
            room: [0; 370],
            page: Page {
                at: 0,
                lines: 0,
                replaced: 0,
                cut: 0,
            },
        }
    }

    // Lays a row, with CR LF after it, behind what lies on the page; one with no character isn't laid.
    fn lay_row(&mut self, row: Row)
        requires { Ready self.old.room self.old.page × RowFits row }
        ensures { IsLaid self.old.room self.old.page row self.new.room self.new.page }
    {
        let n = row.length;
        if n == 0 {
            return;
        }
        let line = begun(row);
        let at = self.page.at;
        let end = at + n;
        lay(&mut self.room[at..], &line.bytes[0..n]);
        lay(&mut self.room[end..], b"\r\n");
        self.page.at = end + 2;
        self.page.lines += 1;
        self.page.replaced += line.replaced;
    }

    // Lays a line on the page, and counts what was cut of it.
    fn lay_line(&mut self, line: Line)
        requires { Ready self.old.room self.old.page × SmallLine line 8192 × (self.old.page.cut ≤ 73728) }
        ensures { IsPut self.old.room self.old.page line self.new.room self.new.page }
    {
        self.lay_row(line.row);
        self.page.cut += line.cut;
    }

    // Lays four rows, one after the other.
    fn lay_rows(&mut self, rows: [Row; 4])
        requires { Ready self.old.room self.old.page × (self.old.page.lines ≤ 6) × AllFillable rows }
        ensures { AreLaid self.old.room self.old.page rows self.new.room self.new.page }
    {
        self.lay_row(rows[0]);
        self.lay_row(rows[1]);
        self.lay_row(rows[2]);
        self.lay_row(rows[3]);
    }

    // Lays field 70 behind what lies on the page: four rows, the reference on those before row `first`, the message on the others.
    fn lay_remittance(&mut self, reference: Line, first: usize, message: &[u8])
        requires ready { Ready self.old.room self.old.page × (self.old.page.lines ≤ 6) × (self.old.page.cut ≤ 73728) }
        requires small_line { SmallLine reference 8192 × (first ≤ 1) × (length message.now ≤ 1024) }
        ensures { IsRemittedOn self reference first message }
    {
        let filled = fill_rows(reference.row, first, message);
        let cut = reference.cut + characters(&message[filled.at..]);
        self.lay_rows(filled.rows);
        self.page.cut += cut;
    }

    // Lays field 70 for a kind of reference, the reference and the message.
    fn lay_reference(&mut self, kind: &[u8], reference: &[u8], message: &[u8])
        requires ready { Ready self.old.room self.old.page × (self.old.page.lines ≤ 6) × (self.old.page.cut ≤ 73728) }
        requires are_short { AreShort kind.now reference.now message.now }
        ensures { IsReferenceLaid self kind reference message }
    {
        if same(kind, b"NON") {
            self.lay_remittance(no_characters(), 0, message);
            return;
        }
        let line = prefixed_line(kind, b"/");
        self.lay_remittance(add(line, reference), 1, message);
    }

    // Lays a line with a text behind its prefix. It is inlined, as is the next one: each such line took about 100
    // instructions more by a call.
    #[inline(always)]
    fn lay_text(&mut self, prefix: &[u8], text: &[u8])
        requires { Open self.old.room self.old.page 1 × (length prefix.now ≤ 1024) × (length text.now ≤ 1024) }
        ensures { IsTextLaid self prefix text }
    {
        self.lay_line(prefixed_line(prefix, text));
    }

    // Lays line n of an accepted bill behind a prefix.
    #[inline(always)]
    fn lay_bill_line(&mut self, bill: &Payload, n: usize, prefix: &[u8])
        requires fact { Open self.old.room self.old.page 1 × Payable bill.now }
        requires le_n { (1 ≤ n) × (n ≤ walk_lines) × (length prefix.now ≤ 1024) }
        ensures { IsLineLaid self prefix bill n }
    {
        self.lay_text(prefix, bill.line(n));
    }

    // Lays the line of its street and number.
    fn lay_street(&mut self, bill: &Payload)
        requires { Open self.old.room self.old.page 1 × Payable bill.now }
        ensures { IsFollowedBy self 1 street_line bill }
    {
        let street = bill.line(7);
        let number = bill.line(8);
        self.lay_line(street_line(street, number));
    }

    // Lays the line of its country, postcode and town.
    fn lay_town(&mut self, bill: &Payload)
        requires { Open self.old.room self.old.page 1 × Payable bill.now }
        ensures { IsFollowedBy self 1 town_line bill }
    {
        let country = bill.line(11);
        let postcode = bill.line(9);
        let town = bill.line(10);
        self.lay_line(town_line(country, postcode, town));
    }

    // Lays what follows the account in field 59a, of an address of type S: name, street and number, town.
    fn lay_structured(&mut self, bill: &Payload)
        requires { Open self.old.room self.old.page 3 × Payable bill.now }
        ensures { IsFollowedBy self 3 structured_lines bill }
    {
        self.lay_bill_line(bill, 6, b"1/");
        self.lay_street(bill);
        self.lay_town(bill);
    }

    // Lays the two address lines of an address of type K.
    fn lay_address_lines(&mut self, bill: &Payload)
        requires { Open self.old.room self.old.page 2 × Payable bill.now }
        ensures { IsFollowedBy self 2 combined_address bill }
    {
        self.lay_bill_line(bill, 7, b"");
        self.lay_bill_line(bill, 8, b"");
    }

    // Lays what follows the account in field 59a, of an address of type K: name, address lines, country.
    fn lay_combined(&mut self, bill: &Payload)
        requires { Open self.old.room self.old.page 4 × Payable bill.now }
        ensures { IsFollowedBy self 4 combined_lines bill }
    {
        self.lay_bill_line(bill, 6, b"");
        self.lay_address_lines(bill);
        self.lay_bill_line(bill, 11, b"");
    }

    // Lays field 59a of an accepted bill: its account, and what follows for the type of its address.
    fn lay_beneficiary(&mut self, bill: &Payload)
        requires { Open self.old.room self.old.page 5 × Payable bill.now }
        ensures { IsFollowedBy self 5 beneficiary bill }
    {
        self.lay_bill_line(bill, 4, b"/");
        if same(bill.line(5), &Edition::COMBINED) {
            self.lay_combined(bill);
        } else {
            self.lay_structured(bill);
        }
    }

    // Lays field 32B of an accepted bill that has an amount.
    fn lay_transaction(&mut self, bill: &Payload)
        requires fact { Open self.old.room self.old.page 1 × Payable bill.now }
        requires payload_value { amount (line 19 (lines_of (cut bill.now))) ≡ true }
        ensures { IsFollowedBy self 1 transaction bill }
    {
        let currency = bill.line(20);
        let paid = bill.line(19);
        self.lay_line(amount_line(currency, paid));
    }

    // Lays field 70 of an accepted bill.
    fn lay_information(&mut self, bill: &Payload)
        requires { Open self.old.room self.old.page 4 × Payable bill.now }
        ensures { IsFollowedBy self 4 remittance bill }
    {
        let kind = bill.line(28);
        let reference = bill.line(29);
        let message = bill.line(30);
        self.lay_reference(kind, reference, message);
    }

    // Lays all three fields of an accepted bill that has an amount, and counts.
    fn lay_fields(&mut self, bill: &Payload) -> Counts
        requires blank { IsBlank self.old × Payable bill.now }
        requires payload_value { amount (line 19 (lines_of (cut bill.now))) ≡ true }
        ensures { AreMade (lines_of (cut bill.now)) self.new.room result }
    {
        self.lay_beneficiary(bill);
        let beneficiary = self.page.lines;
        self.lay_transaction(bill);
        let transaction = self.page.lines;
        self.lay_information(bill);
        let page = self.page;
        Counts {
            bytes: page.at - 2,
            beneficiary,
            transaction: transaction - beneficiary,
            remittance: page.lines - transaction,
            cut: page.cut,
            replaced: page.replaced,
        }
    }
}

// Lays the fields of an accepted bill, made in a draft of their own, in the front of the destination: it must have an
// amount, and the destination room.
fn map_bill(bill: &Payload, dest: &mut [u8]) -> Result<Counts, Fault>
    requires { Payable bill.now }
    ensures { IsMappedBill bill.now dest.old result dest.new }
{
    let paid = bill.line(19);
    if paid.len() == 0 {
        return Err(Fault::NoAmount(19));
    }
    let mut draft = Draft::blank();
    let counts = draft.lay_fields(bill);
    let n = counts.bytes;
    if dest.len() < n {
        return Err(Fault::NoRoom);
    }
    lay(dest, &draft.room[0..n]);
    Ok(counts)
}

// The contents of SWIFT's fields 59a, 32B and 70 for a payload under an edition, all lines parted by CR LF, in the front of the destination,
// and what is told of them. A refusal changes no byte.
pub fn fields(payload: &[u8], edition: Edition, dest: &mut [u8]) -> Result<Counts, Fault>
    ensures { IsMapped (swiss_in edition) payload.now dest.old result dest.new }
{
    let mut places = [0; WALK_NUMBERS];
    judge_in(payload, &mut places, edition)?;
    map_bill(&Payload::new(payload, &places), dest)
}
