// A caller's own options, used by the bound that parsers require.

use crate::tests::answers;
use lexical_util::options::ParseOptions;

struct EvenOnly(u8);

impl ParseOptions for EvenOnly {
    ghost use Rattle.std.specs.Prelude.{◌==◌, ◌%◌};

    ghost valid = { λ options. options.0 % 2 == 0 };

    fn is_valid(&self) -> bool {
        self.0 % 2 == 0
    }
}

fn may_be_given<O: ParseOptions>(options: &O) -> bool {
    options.is_valid()
}

#[test]
fn options_by_their_bound(rt: HostRuntime) {
    let given = [may_be_given(&EvenOnly(4)), may_be_given(&EvenOnly(5))];
    answers(&rt, given, [true, false]);
}
