// A music line of a part: its tokens from left to right, each applied to the part in scratch and registers (000, parse_body_line).
#![tactic(auto)]

ghost use Rattle.std.specs.Prelude.{length};
ghost use Rattle.part_layout.specs.Log.{on_line};
ghost use Rattle.part_invariant.specs.Lines.{RepresentedBetween, RoomForBytes, SimulatesItem};
ghost use Rattle.part_sounds.specs.Sounds.{OnceAppended};
ghost use Rattle.part_body.specs.Body.{Ready, SimulatesToken};

use editions::Edition;
use field_keys::Key;
use part_registers::{Registers, Tables};
use part_sounds::Deferred;
use token_lengths::Length;
use token_lexemes::Token;
use token_symbols::{Bar, Tuplet};

// What a token does, but for the row that it leaves to be appended. Quoted texts, decorations, other fields and bytes that mean nothing do nothing.
fn on_token(
    line: &[u8],
    store: &mut [u8],
    t: Tables,
    r: Registers,
    token: Token<Length>,
) -> Deferred
    requires { Ready line.now t store.old r token }
    ensures { OnceAppended t store.new result (λ s x. SimulatesToken line.now t store.old r s x token) }
{
    match token {
        Token::Space => part_sounds::defer_nothing(part_steps::on_space(r)),
        Token::Overlay => part_sounds::defer_nothing(part_steps::on_overlay(r)),
        Token::Quoted => part_sounds::defer_nothing(r),
        Token::Broken { up, count } => part_sounds::defer_nothing(part_rhythm::on_broken(
            store, t, r, up, count,
        )),
        Token::Tuplet {
            actual,
            normal,
            count,
        } => part_sounds::defer_nothing(part_steps::on_tuplet(
            r,
            Tuplet {
                actual,
                normal,
                count,
            },
        )),
        Token::Slur => part_sounds::defer_nothing(part_steps::on_slur(r)),
        Token::GraceOpen => part_sounds::defer_nothing(part_steps::on_grace_open(r)),
        Token::GraceClose => part_sounds::defer_nothing(part_steps::on_grace_close(r)),
        Token::Decoration => part_sounds::defer_nothing(r),
        Token::Barline { right, left, opens } => part_sounds::defer_nothing(part_bars::on_barline(
            store,
            t,
            r,
            Bar { right, left },
            opens,
        )),
        Token::Volta { first, passes } => {
            part_bars::on_volta(store, t, r, first, passes);
            part_sounds::defer_nothing(r)
        }
        Token::Unit(unit) => part_sounds::defer_nothing(part_steps::on_unit(r, unit)),
        Token::Meter { top, bottom } => part_sounds::defer_nothing(part_bars::on_meter(
            store, t, r, top, bottom,
        )),
        Token::Key { fifths, minor } => part_sounds::defer_nothing(part_steps::on_key(
            store,
            t,
            r,
            Key { fifths, minor },
        )),
        Token::Field => part_sounds::defer_nothing(r),
        Token::Chord {
            place,
            count,
            length,
            tie,
            slur,
        } => part_chords::append_abc_chord_note(line, store, t, r, place, count, length, tie, slur),
        Token::Rest { kind, length } => part_sounds::append_abc_rest_note(r, kind, length),
        Token::Note {
            pitch,
            length,
            tie,
            slur,
        } => part_sounds::append_abc_pitched_note(store, t, r, pitch, length, tie, slur),
        Token::Nothing => part_sounds::defer_nothing(part_rhythm::on_nothing(store, t, r)),
        Token::Skipped => part_sounds::defer_nothing(r),
        Token::Refused(_) => part_sounds::defer_nothing(r),
    }
}

// A music line, which begins with this unit and meter in force.
pub fn parse_body_line(
    edition: Edition,
    line: &[u8],
    store: &mut [u8],
    t: Tables,
    r: Registers,
    unit: u32,
    top: u8,
    bottom: u8,
) -> Registers
    requires { RoomForBytes t r.counts (length store.old) line.now × RepresentedBetween t store.old r }
    ensures { SimulatesItem t store.old r store.new result line.now (on_line edition unit (top, bottom) line.now) }
{
    let classes = token_symbols::letter_classes();
    let mut x = part_steps::begin_line(store, t, r, unit, top, bottom);
    // Each token says where the next one begins: a step of one to many bytes, so no range.
    let mut at: usize = 0;
    while at < line.len() {
        let kept = x.line;
        let taken = tokens::token_at(edition, line, at, kept.unit, &classes);
        let token = taken.value;
        let deferred = on_token(line, store, t, x, token);
        x = part_sounds::append_deferred(store, t, deferred);
        at = taken.next;
    }
    x
}
