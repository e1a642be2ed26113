//! The rule of a reference, as a validator in Clojure.
ghost use Rattle.std.specs.Prelude.{◌≡◌, ◌≢◌, None, Some, IfErr, IfOk, OnErr, OnOk, is_ok};
ghost use Rattle.ref_fun.specs.Rule.{is_known, passes, unknown};

use crate::arguments::Args;
use crate::meanings::Meaning;
use crate::tables::Functions;
use ref_value::Value;
use std::alloc::AllocError;

/// A predicate by its code, with its arguments: which values a reference may have. In contracts rules are equal where
/// their codes are and their arguments are equal values.
#[derive(Drop)]
pub struct Rule {
    pub code: u32,
    pub args: Args,
}

impl Rule {
    /// One more owner of the arguments. It takes no memory; only the count of owners can refuse.
    pub fn share(&self) -> Result<Rule, AllocError>
        ensures { IfOk result (λ r. r ≡ self.now) }
    {
        Ok(Rule {
            code: self.code,
            args: self.args.share()?,
        })
    }
}

/// One more owner of a rule's arguments, if there is a rule. As for [`Rule::share`], only the count of owners can refuse.
pub fn share_rule(rule: &Option<Rule>) -> Result<Option<Rule>, AllocError>
    ensures value { IfOk result (λ r. r ≡ rule.now) }
    ensures none { OnErr result (rule.now ≢ None) }
{
    match rule {
        None => Ok(None),
        Some(rule) => Ok(Some(rule.share()?)),
    }
}

/// The code of a rule for which a table has no predicate, if there is one.
pub fn check_known<M: Meaning, F: Functions<M>>(funs: &F, rule: &Option<Rule>) -> Result<(), u32>
    ensures ok { OnOk result (unknown (F.knows funs.now).preds rule.now ≡ None) }
    ensures known { is_ok result ≡ is_known (F.knows funs.now).preds rule.now }
    ensures err { IfErr result (λ code. unknown (F.knows funs.now).preds rule.now ≡ Some code) }
{
    match rule {
        None => Ok(()),
        Some(rule) => {
            if funs.has_pred(rule.code) {
                Ok(())
            } else {
                Err(rule.code)
            }
        }
    }
}

/// Whether a rule that the table knows, or none, accepts a value.
pub fn passes<M: Meaning, F: Functions<M>>(funs: &F, rule: &Option<Rule>, value: &Value) -> bool
    requires { unknown (F.knows funs.now).preds rule.now ≡ None }
    ensures { result ≡ passes M.accepts rule.now value.now }
{
    match rule {
        None => true,
        Some(rule) => match funs.test(rule.code, value, rule.args.as_slice()) {
            Some(accepted) => accepted,
            None => unreachable!(),
        },
    }
}
