//! Formats by their names.

ghost use Rattle.std.specs.Prelude.{◌≡◌, List, ℕ};
ghost use Rattle.std.specs.Str.{bytes_eq};
ghost use Rattle.redl_formats.specs.Formats.{first_named, without_named};

/// A format in a list of formats, of listings or of others.
pub trait Named {
    // Its name.
    ghost name_of: { Self → List ℕ };

    /// Its name. It takes no memory.
    fn title(&self) -> &str
        ensures { result.now ≡ name_of self.now };
}

/// Whether the format has this name.
pub fn has_name<F: Named>(format: &F, name: &str) -> bool
    ensures { result ≡ bytes_eq (F.name_of format.now) name.now }
{
    format.title() == name
}

/// Takes the first format with this name out of the list.
pub fn take_named<F: Named>(formats: &mut Vec<F>, name: &str) -> Option<F>
    ensures found { result ≡ first_named F.name_of name.now formats.old.items }
    ensures left { formats.new.items ≡ without_named F.name_of name.now formats.old.items }
{
    for place in 0..formats.len() {
        if has_name(&formats[place], name) {
            return Some(formats.remove(place));
        }
    }
    None
}
