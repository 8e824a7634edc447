//! The call that makes division steps.

ghost use Rattle.std.specs.Prelude.{◌≡◌, length, replicate, MatchResult};
ghost use Rattle.std.specs.Result.{result_err};
ghost use Rattle.refusal.specs.Questions.{first_no};
ghost use Rattle.field.specs.Meaning.{coded};
ghost use Rattle.divstep.specs.Steps.{after, not_zero, state_of};
ghost use Rattle.steps.specs.Asked.{steps_asked};

use crate::questions::ask_steps;
use crate::run::Lists;
use crate::starts::set_one;
use field::Field;
use refusal::Refusal;
use scratch::Wipe;

/// Makes n division steps from δ, f and g. Returns δ after them; f and g are replaced, and u, v, q, r
/// become the matrix of the steps. (Nine arguments, since the caller lends each list; inside they are one struct.)
pub fn steps<F: Field>(
    delta: i32,
    n: usize,
    f: &mut [u16],
    g: &mut [u16],
    u: &mut [u16],
    v: &mut [u16],
    q: &mut [u16],
    r: &mut [u16],
    scratch: &mut [u16],
) -> Result<i32, Refusal>
    ensures scratch_zero { scratch.new ≡ replicate (length scratch.old) 0 }
    ensures refused_as_asked { result_err result ≡ first_no (steps_asked F.Field.arithmetic.size delta n f.old g.old (length u.old) (length v.old) (length q.old) (length r.old) (length scratch.old)) }
    ensures after_n_steps { MatchResult result (λ d. state_of d f.new g.new u.new v.new q.new r.new ≡ after (coded F.Field.arithmetic) not_zero n delta f.old g.old)
        (λ _. state_of delta f.new g.new u.new v.new q.new r.new ≡ state_of delta f.old g.old u.old v.old q.old r.old) }
{
    let guard = Wipe { scratch };
    ask_steps::<F>(
        delta,
        n,
        f,
        g,
        u.len(),
        v.len(),
        q.len(),
        r.len(),
        guard.scratch.len(),
    )?;
    set_one(u);
    v.fill(0);
    q.fill(0);
    set_one(r);
    let mut lists = Lists {
        delta,
        f,
        g,
        u,
        v,
        q,
        r,
        scratch: guard.scratch,
    };
    lists.run::<F>(n);
    Ok(lists.delta)
}
