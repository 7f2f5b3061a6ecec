// Calls for C, all of edition 2.4 but the season, which tries both: the verdict on a payload and the place of a line as
// one number each, the list of places, the account at a glance, the writer, numbers of our own, a pile of bills, a
// season, SWIFT fields, a payload that comes in bits, and one that is mended.

#![tactic(auto)]

ghost use Rattle.std.specs.Prelude.{◌≡◌};
ghost use Rattle.sieve.specs.Verdict.{verdict};
ghost use Rattle.swiss.specs.Swiss.{swiss};
ghost use Rattle.packing.specs.Packing.{packed};
ghost use Rattle.packing.specs.Calls.{packed_line_in, IsPackedRead, IsPackedWrittenTo};
ghost use Rattle.glance.specs.Glance.{glance, account_as};
ghost use Rattle.capi.specs.Calls.{packed_account, IsPackedQrr, IsPackedScor, IsPackedIban, IsPackedPiledTo};
ghost use Rattle.capi.specs.Calls.{IsPackedTriedTo, told_counts, IsPackedFieldsTo, told_repairs, IsPackedMendedTo};
ghost use Rattle.mender.specs.Promised.{AreFew};
ghost use Rattle.swift.specs.Promised.{AreSmall};
ghost use Rattle.scanner.specs.Scanning.{held_in, handed_over};

use glance::glance;
use making::{make_iban, make_qrr, make_scor};
use mender::{Repairs, mend};
use packing::{
    break_for, packed_answer, packed_laying, packed_line, packed_place, packed_refusal,
    packed_verdict, room_beside, told_count,
};
use pile::pile;
use reader::read;
use runs::lay;
use scanner::hand_over;
use season::season;
use sieve::{Fault, WALK_NUMBERS};
use swift::{Counts, fields};
use swiss::Edition;
use swiss_judge::{judge, verdict};
use writer::write;

// The line count of an accepted payload; of a refused one 1000 times the refusal plus the line.
#[unsafe(no_mangle)]
pub extern "C" fn qrbill_read(payload: &[u8]) -> u32
    ensures { result ≡ packed (verdict swiss payload.now) }
{
    packed_answer(verdict(payload))
}

// 1000 times the start plus the length of a line of an accepted payload, counted from 1; 0 where the payload is refused
// or the number is not 1 to 34.
#[unsafe(no_mangle)]
pub extern "C" fn qrbill_line(payload: &[u8], line: u32) -> u32
    ensures { result ≡ packed_line_in swiss payload.now line }
{
    let mut places = [0; WALK_NUMBERS];
    let answer = judge(payload, &mut places);
    packed_line(answer, &places, line, Edition::MOST_LINES)
}

// The line count of an accepted payload, plus 100 for CR LF, with the places in the list's front; else 1000 times the
// refusal plus the line, and the list is as it was.
#[unsafe(no_mangle)]
pub extern "C" fn qrbill_places(payload: &[u8], list: &mut [u16]) -> u32
    ensures { IsPackedRead swiss payload.now list.old result list.new }
{
    packed_verdict(read(payload, Edition::V24, list))
}

// 1000 times the start plus the length of the IBAN, by the first 37 bytes; 0 where it is not known.
#[unsafe(no_mangle)]
pub extern "C" fn qrbill_glance(payload: &[u8]) -> u32
    ensures { result ≡ packed_account (account_as (glance payload.now)) }
{
    match glance(payload) {
        Some(place) => packed_place(place.start as u16, place.bytes as u16),
        None => 0,
    }
}

// How many bytes were written; else 1000 times the refusal plus the line, and the destination is as it was.
#[unsafe(no_mangle)]
pub extern "C" fn qrbill_write(
    text: &[u8],
    list: &[u16],
    count: u32,
    crlf: bool,
    dest: &mut [u8],
) -> u32
    ensures { IsPackedWrittenTo swiss text list count crlf dest result }
{
    packed_laying(write(
        text,
        list,
        told_count(count),
        break_for(crlf),
        Edition::V24,
        dest,
    ))
}

// The length of a QR reference made of 26 digits, which lies in the destination's front; else 10000 or 15000, and the
// destination is as it was.
#[unsafe(no_mangle)]
pub extern "C" fn qrbill_make_qrr(digits: &[u8], dest: &mut [u8]) -> u32
    ensures { IsPackedQrr digits dest result }
{
    packed_laying(make_qrr(digits, dest))
}

// The length of a creditor reference, which lies in the destination's front; else 10000 or 15000, and the destination is
// as it was.
#[unsafe(no_mangle)]
pub extern "C" fn qrbill_make_scor(reference: &[u8], dest: &mut [u8]) -> u32
    ensures { IsPackedScor reference dest result }
{
    packed_laying(make_scor(reference, dest))
}

// The length of an IBAN, which lies in the destination's front; else 10000 or 15000, and the destination is as it was.
#[unsafe(no_mangle)]
pub extern "C" fn qrbill_make_iban(
    country: &[u8],
    iid: &[u8],
    account: &[u8],
    dest: &mut [u8],
) -> u32
    ensures { IsPackedIban country iid account dest result }
{
    packed_laying(make_iban(country, iid, account, dest))
}

// 0 where each bill of a pile has its entry in the front of the list; else 1000 times the refusal plus the position of a
// bill, and the list is as it was.
#[unsafe(no_mangle)]
pub extern "C" fn qrbill_pile(buffer: &[u8], places: &[u32], count: u32, answers: &mut [u16]) -> u32
    ensures { IsPackedPiledTo buffer places count answers result }
{
    match pile(buffer, places, count as usize, Edition::V24, answers) {
        Ok(()) => 0,
        Err(fault) => packed_refusal(fault),
    }
}

// How many positions a season lists in the front of the list, with the sums of CHF and of EUR in that of the other;
// else 1000 times the refusal plus the position of a bill, and neither has changed. A season of no bills asks for no
// room in the list.
#[unsafe(no_mangle)]
pub extern "C" fn qrbill_season(
    buffer: &[u8],
    places: &[u32],
    count: u32,
    list: &mut [u16],
    sums: &mut [u64],
) -> u32
    ensures { IsPackedTriedTo buffer places count list sums result }
{
    let room = room_beside(list.len(), sums.len(), 2);
    match season(buffer, places, count as usize, &mut list[0..room]) {
        Err(untried) => packed_refusal(untried),
        Ok(tried) => {
            if sums.len() < 2 {
                return packed_refusal(Fault::NoRoom);
            }
            sums[0] = tried.francs;
            sums[1] = tried.euros;
            tried.listed as u32
        }
    }
}

// The counts as numbers: lines of 59a, of 32B and of 70, characters cut, characters replaced.
fn told_counts(counts: Counts) -> [u16; 5]
    requires { AreSmall counts }
    ensures { result ≡ told_counts counts }
{
    [
        counts.beneficiary as u16,
        counts.transaction as u16,
        counts.remittance as u16,
        counts.cut as u16,
        counts.replaced as u16,
    ]
}

// How many bytes of SWIFT fields lie in the destination's front, with the counts in that of the list; else 1000 times the
// refusal plus the line, and neither has changed.
#[unsafe(no_mangle)]
pub extern "C" fn qrbill_swift(payload: &[u8], dest: &mut [u8], list: &mut [u16]) -> u32
    ensures { IsPackedFieldsTo swiss payload dest list result }
{
    let room = room_beside(dest.len(), list.len(), 5);
    match fields(payload, Edition::V24, &mut dest[0..room]) {
        Err(unmapped) => packed_refusal(unmapped),
        Ok(counts) => {
            lay(list, &told_counts(counts));
            counts.bytes as u32
        }
    }
}

// How many bytes of a room are held once a bit is put behind those that were; 998 where they are too many, and then no
// byte has changed.
#[unsafe(no_mangle)]
pub extern "C" fn qrbill_hand(held: &mut [u8], length: usize, bit: &[u8]) -> usize
    ensures { held_in held.new result ≡ handed_over (held_in held.old length) bit.now }
{
    hand_over(held, length, bit)
}

// What was counted as numbers: breaks that were not LF, spaces taken, lines dropped.
fn told_repairs(repairs: Repairs) -> [u16; 3]
    requires { AreFew repairs }
    ensures { result ≡ told_repairs repairs }
{
    [
        repairs.breaks as u16,
        repairs.spaces as u16,
        repairs.lines as u16,
    ]
}

// How many bytes of a mended payload lie in the destination's front, with the counts in that of the list; else 1000 times
// the refusal plus the line, and neither has changed.
#[unsafe(no_mangle)]
pub extern "C" fn qrbill_mend(payload: &[u8], dest: &mut [u8], list: &mut [u16]) -> u32
    ensures { IsPackedMendedTo payload dest list result }
{
    let room = room_beside(dest.len(), list.len(), 3);
    match mend(payload, &mut dest[0..room]) {
        Err(unmended) => packed_refusal(unmended),
        Ok((bytes, repairs)) => {
            lay(list, &told_repairs(repairs));
            bytes as u32
        }
    }
}
