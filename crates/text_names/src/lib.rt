// A text compared with a name, as it stands or in any case.
#![tactic(auto)]

ghost use Rattle.std.specs.Prelude.{◌≡◌, map};
ghost use Rattle.laws.specs.Lists.{starts_with, eq_text};
ghost use Rattle.standard.specs.Bytes.{lower};

// The text begins with `name`.
pub fn starts_with(text: &[u8], name: &[u8]) -> bool
    ensures { result ≡ starts_with name.now text.now }
{
    text.starts_with(name)
}

// The text is `name`.
pub fn is_text(text: &[u8], name: &[u8]) -> bool
    ensures { result ≡ eq_text text.now name.now }
{
    text == name
}

// The text begins with `name`, small letters, in any case.
pub fn says(text: &[u8], name: &[u8]) -> bool
    ensures { result ≡ starts_with name.now (map lower text.now) }
{
    if text.len() < name.len() {
        return false;
    }
    for i in 0..name.len() {
        if name[i] != text[i].to_ascii_lowercase() {
            return false;
        }
    }
    true
}

// The text is `name`, small letters, in any case.
pub fn is_named(text: &[u8], name: &[u8]) -> bool
    ensures { result ≡ eq_text name.now (map lower text.now) }
{
    text.len() == name.len() && says(text, name)
}
