//! The tests of a port (RFC 8519, section 4.2, `port-range-or-operator`).

ghost use Rattle.std.specs.Prelude.{◌≡◌, codes};
ghost use Rattle.serde_json.specs.Find.{get};
ghost use Rattle.serde_json.specs.View.{view};
ghost use Rattle.list_json.specs.declared.fault.Member.TheVariants as the;
ghost use Rattle.list_json.specs.Lists.{word_of, operator_in, test_by, range_test, operated, ranged, either_form, port_test_of};
ghost use Rattle.list_json.specs.Steps.{given};
ghost use Rattle.list_json.specs.Values.{port_of};

use crate::alias_reading::range_between;
use crate::fault::{ListFault, Member};
use crate::shape::{Shape, check_members};
use crate::values::port_of;
use acl_lists::PortTest;
use serde_json::Value;

/// How a port is compared with another.
#[derive(Clone, Copy)]
pub enum Operator {
    Lte,
    Gte,
    Eq,
    Neq,
}

impl Operator {
    fn in_text(text: &str) -> Option<Operator>
        ensures { result ≡ operator_in text.now }
    {
        match text {
            "lte" => Some(Operator::Lte),
            "gte" => Some(Operator::Gte),
            "eq" => Some(Operator::Eq),
            "neq" => Some(Operator::Neq),
            _ => None,
        }
    }

    /// What it asks of a port.
    fn test(self, port: u16) -> PortTest
        ensures { result ≡ test_by self port }
    {
        match self {
            Operator::Lte => PortTest::Lte(port),
            Operator::Gte => PortTest::Gte(port),
            Operator::Eq => PortTest::Eq(port),
            Operator::Neq => PortTest::Neq(port),
        }
    }
}

/// The operator that a value names.
fn operator_of(value: &Value) -> Result<Operator, ListFault>
    ensures { result ≡ word_of operator_in the.Operator (view value.now) }
{
    let Some(text) = value.as_str() else {
        return Err(ListFault::Invalid(Member::Operator));
    };
    Operator::in_text(text).ok_or(ListFault::Invalid(Member::Operator))
}

/// The member `operator`, where it is there.
fn own_operator(test: &Value) -> Result<Option<Operator>, ListFault>
    ensures { result ≡ given (word_of operator_in the.Operator) (get (codes "operator") (view test.now)) }
{
    match test.get("operator") {
        Some(value) => Ok(Some(operator_of(value)?)),
        None => Ok(None),
    }
}

/// The member of this name that is a port, where it is there.
fn own_port(test: &Value, name: &str, member: Member) -> Result<Option<u16>, ListFault>
    ensures { result ≡ given (port_of member) (get name.now (view test.now)) }
{
    match test.get(name) {
        Some(value) => Ok(Some(port_of(member, value)?)),
        None => Ok(None),
    }
}

fn operated(
    operator: Option<Operator>,
    port: Option<u16>,
    member: Member,
) -> Result<PortTest, ListFault>
    ensures { result ≡ operated member operator port }
{
    match (operator, port) {
        (Some(operator), Some(port)) => Ok(operator.test(port)),
        (Some(_), None) => Err(ListFault::Missing(Member::Port)),
        (None, _) => Err(ListFault::Missing(Member::Operator)),
    }
}

fn ranged(lower: Option<u16>, upper: Option<u16>) -> Result<PortTest, ListFault>
    ensures { result ≡ ranged lower upper }
{
    match (lower, upper) {
        (Some(lower), Some(upper)) => Ok(PortTest::Range(range_between(lower, upper)?)),
        (Some(_), None) => Err(ListFault::Missing(Member::UpperPort)),
        (None, _) => Err(ListFault::Missing(Member::LowerPort)),
    }
}

/// What is asked of a port, in one of its two forms.
fn either_form(
    operator: Option<Operator>,
    port: Option<u16>,
    lower: Option<u16>,
    upper: Option<u16>,
    member: Member,
) -> Result<PortTest, ListFault>
    ensures { result ≡ either_form member operator port lower upper }
{
    if lower.is_none() && upper.is_none() {
        return operated(operator, port, member);
    }
    if operator.is_none() && port.is_none() {
        return ranged(lower, upper);
    }
    Err(ListFault::Invalid(member))
}

/// What the value of this member asks of a port.
pub fn port_test_of(member: Member, value: &Value) -> Result<PortTest, ListFault>
    ensures { result ≡ port_test_of member (view value.now) }
{
    check_members(value, Shape::PortTest, member)?;
    let operator = own_operator(value)?;
    let port = own_port(value, "port", Member::Port)?;
    let lower = own_port(value, "lower-port", Member::LowerPort)?;
    let upper = own_port(value, "upper-port", Member::UpperPort)?;
    either_form(operator, port, lower, upper, member)
}
