// The forms of the commands on transforms.
ghost use Rattle.std.specs.Prelude.{◌≡◌};
ghost use Rattle.mps_model.specs.declared.call.Call.TheVariants as call;
ghost use Rattle.mps_line_words.specs.Word.{words};
ghost use Rattle.mps_line_words.specs.Name.{name_of, slot_of};
ghost use Rattle.mps_grammar.specs.Calls.{one, three};
ghost use Rattle.mps_grammar.specs.Filled.{filled};

use mps_line_words::{name, name_slot_slot};
use mps_model::Call;

/// `transform X`, after `transform`.
#[inline(never)]
pub fn transform(arguments: &[u8], into: &mut Call) -> Option<()>
    ensures { filled result into.new ≡ one name_of call.Transform (words arguments.now) }
{
    let transform = name(arguments)?;
    *into = Call::Transform {
        transform: transform.name(),
    };
    Some(())
}

/// `transadd X S T`, after `transadd`.
#[inline(never)]
pub fn transform_add(arguments: &[u8], into: &mut Call) -> Option<()>
    ensures { filled result into.new ≡ three name_of slot_of slot_of call.TransformAdd (words arguments.now) }
{
    let (transform, (old, new)) = name_slot_slot(arguments)?;
    *into = Call::TransformAdd {
        transform: transform.name(),
        old: old.slot(),
        new: new.slot(),
    };
    Some(())
}

/// `transapply X`, after `transapply`.
#[inline(never)]
pub fn transform_apply(arguments: &[u8], into: &mut Call) -> Option<()>
    ensures { filled result into.new ≡ one name_of call.TransformApply (words arguments.now) }
{
    let transform = name(arguments)?;
    *into = Call::TransformApply {
        transform: transform.name(),
    };
    Some(())
}

/// `transdrop X`, after `transdrop`.
#[inline(never)]
pub fn transform_drop(arguments: &[u8], into: &mut Call) -> Option<()>
    ensures { filled result into.new ≡ one name_of call.TransformDrop (words arguments.now) }
{
    let transform = name(arguments)?;
    *into = Call::TransformDrop {
        transform: transform.name(),
    };
    Some(())
}
