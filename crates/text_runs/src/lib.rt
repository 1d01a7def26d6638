// Loops over the bytes of a line that the tokens share: a run of one byte, the next place of one, and the ties and slur ends behind a note.
#![tactic(auto)]

ghost use Rattle.std.specs.Prelude.{◌≡◌, ℕ, Bool, not, ◌≤◌, eqb, length, drop};
ghost use Rattle.laws.specs.Spans.{end_of, end_in};
ghost use Rattle.reader.specs.Sounds.{behind};
ghost use Rattle.text_runs.specs.Behind.{behind_for};

// Right behind a note: a tie starts, a slur ends; and the position after these. Flat, since a Read's `value.tie` would be no plainer.
#[derive(Clone, Copy, Debug, PartialEq, Eq)]
pub struct Behind {
    pub tie: bool,
    pub slur: bool,
    pub next: usize,
}

// The first position in from..to whose byte does not pass; if each passes `to`, or `from` where that is beyond.
pub fn end_while<F: Fn(u8) -> bool>(line: &[u8], from: usize, to: usize, passes: F) -> usize
    requires within { to ≤ length line.now }
    requires callable { F.IsAlwaysCallable passes }
    ensures { (p : ℕ → Bool) → ((b : ℕ) (r : Bool) → F.post passes b r → r ≡ p b) → result ≡ end_in p line.now from to }
{
    for i in from..to {
        if !passes(line[i]) {
            return i;
        }
    }
    from.max(to)
}

// The position after the bytes `b` that stand from `at` on.
pub fn run_end(line: &[u8], at: usize, b: u8) -> usize
    ensures { result ≡ end_of (λ c. eqb c b) line.now at }
{
    end_while(line, at, line.len(), |c| c == b)
}

// The first position of `b` in from..to, and `to` if there is none. By positions, as tokens have them.
pub fn find(line: &[u8], from: usize, to: usize, b: u8) -> usize
    requires { to ≤ length line.now }
    ensures { result ≡ end_in (λ c. not (eqb c b)) line.now from to }
{
    end_while(line, from, to, |c| c != b)
}

// Every `-` and `)` right behind a note (000, apply_abc_note_annotations).
#[tactic(auto, using(crate::proofs::Behinds::marking_start, crate::proofs::Behinds::marking_other, crate::proofs::Behinds::marking_end))]
pub fn apply_abc_note_annotations(line: &[u8], at: usize) -> Behind
    ensures { result ≡ behind_for at (behind (drop at line.now)) }
{
    let mut tie = false;
    let mut slur = false;
    for cursor in at..line.len() {
        match line[cursor] {
            b'-' => tie = true,
            b')' => slur = true,
            _ => {
                return Behind {
                    tie,
                    slur,
                    next: cursor,
                };
            }
        }
    }
    Behind {
        tie,
        slur,
        next: at.max(line.len()),
    }
}
