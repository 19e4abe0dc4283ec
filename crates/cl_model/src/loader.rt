ghost use Rattle.std.specs.Prelude.{◌≡◌, ◌<◌, ◌++◌, length, map, string_bytes, OnOk};
ghost use Rattle.cl_model.specs.Classes.{class};
ghost use Rattle.cl_model.specs.Lines.{class_text, loader_text};

use cl_names::Name;
use std::alloc::AllocError;
use std::marker::Model;

/// A class loader, by its place in the configuration, counted from 0 (JVMS SE 8, 5.3).
#[derive(Clone, Copy, Debug, PartialEq, Eq, PartialOrd, Ord, Hash)]
pub struct LoaderId(pub u16);

impl Model for LoaderId {
    ghost use Rattle.std.specs.Prelude.{ℕ};

    ghost Value = { ℕ };

    ghost view = { λ l. l.0 };

    ghost inverse = { λ n. record { 0 = n } };
}

/// Puts the text `N@M` of a name and a loader behind the text.
pub(crate) fn put_located(
    loaders: &[String],
    name: &Name,
    loader: LoaderId,
    text: &mut String,
) -> Result<(), AllocError>
    requires { loader < length loaders.now }
    ensures { OnOk result (string_bytes text.new ≡ string_bytes text.old
        ++ class_text (map string_bytes loaders.now) (class name.now loader)) }
{
    name.put_text(text)?;
    text.push_str("@")?;
    text.push_str(loader_name(loaders, loader))
}

/// The name of a loader.
#[tactic(auto, using(crate::proofs::Texts::name_at))]
pub(crate) fn loader_name<'a>(loaders: &'a [String], loader: LoaderId) -> &'a str
    requires { loader < length loaders.now }
    ensures { result.now ≡ loader_text (map string_bytes loaders.now) loader }
{
    loaders[usize::from(loader.0)].as_str()
}
