// Writers of sections: each is lent the store from where the last one ended, and answers how far it got in that.
#![tactic(auto)]

ghost use Rattle.std.specs.Prelude.{◌≡◌, ◌-◌, ◌≤◌, length};
ghost use Rattle.laws.specs.Bytes.{splice, zeros, le32};
ghost use Rattle.store_sections.specs.Writes.{WroteIs, reached};

// Writes v as four bytes: a count. Answers how far it got, as each writer does: None where there is no room.
pub fn write_u32(to: &mut [u8], v: u32) -> Option<usize>
    ensures { WroteIs to.old (le32 v) to.new result }
{
    if to.len() < 4 {
        return None;
    }
    store::put_u32(to, 0, v);
    Some(4)
}

// Clears what a writer did not write: the store after what it wrote, or, where it had no room, all of it.
pub fn seal(to: &mut [u8], wrote: Option<usize>)
    requires { reached wrote ≤ length to.old }
    ensures { to.new ≡ splice to.old (reached wrote) (zeros (length to.old - reached wrote)) }
{
    store::clear(to, wrote.unwrap_or(0));
}
