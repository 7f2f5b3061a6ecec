// The check digit of a run of digits by modulo 10, recursive.

#![tactic(auto)]

ghost use Rattle.std.specs.Prelude.{true, ◌++◌, ◌≡◌, ◌+◌, ◌-◌, ◌%◌, ◌<◌, get_or};
ghost use Rattle.sieve.specs.Bytes.{every};
ghost use Rattle.sieve.specs.Letters.{digit};
ghost use Rattle.sieve.specs.Mod10.{next_carry, check_digit, checks10};

// The next carry at carry plus digit, twice in a row, so that of a sum below 20 no remainder by 10 is taken.
const NEXT_CARRY: [u8; 20] = [0, 9, 4, 6, 8, 2, 7, 1, 3, 5, 0, 9, 4, 6, 8, 2, 7, 1, 3, 5];

// What a digit stands for. A byte below the digits counts as 0.
fn digit_value(x: u8) -> u8
    ensures { result ≡ x - 48 }
{
    x.saturating_sub(b'0')
}

// The carry c after one digit more. The table is lent, since each function that names a constant array stores it anew.
fn next_carry(table: &[u8; 20], c: u8, x: u8) -> u8
    requires { (c < 10) × (table.now ≡ next_carry ++ next_carry) }
    ensures { result ≡ get_or next_carry ((c + (x - 48)) % 10) 0 }
{
    let sum = c + digit_value(x);
    if sum < 20 {
        return table[sum as usize];
    }
    table[(sum % 10) as usize]
}

// The carry c after a digit.
fn carry_after(table: &[u8; 20], c: u8, x: u8) -> u8
    requires { (c < 10) × (table.now ≡ next_carry ++ next_carry) × (digit x ≡ true) }
    ensures { result ≡ get_or next_carry ((c + (x - 48)) % 10) 0 }
{
    table[(c + (x - b'0')) as usize]
}

// The check digit, as a byte, that a carry leaves. Under carry 0 it is 0 and not 10.
fn due(c: u8) -> u8
    requires { c < 10 }
    ensures { result ≡ 48 + (10 - c) % 10 }
{
    48 + (10 - c) % 10
}

// Modulo 10, recursive: the check digit, as a byte, that a run of digits asks for.
pub fn check_digit(s: &[u8]) -> u8
    ensures { result ≡ check_digit s.now }
{
    let table = NEXT_CARRY;
    let mut c = 0;
    for x in s {
        c = next_carry(&table, c, *x);
    }
    due(c)
}

// What `check_digit` answers of bytes that are known to be digits: none of them is told from other bytes.
pub fn check_digit_of_digits(s: &[u8]) -> u8
    requires { every digit s.now ≡ true }
    ensures { result ≡ check_digit s.now }
{
    let table = NEXT_CARRY;
    let mut carry = 0;
    for x in s {
        carry = carry_after(&table, carry, *x);
    }
    due(carry)
}

// Whether the 27th digit is the one that the first 26 ask for. A shorter text has none, and more after it is not read.
pub fn checks10(s: &[u8]) -> bool
    ensures { result ≡ checks10 s.now }
{
    if s.len() < 27 {
        return false;
    }
    s[26] == check_digit(&s[0..26])
}
