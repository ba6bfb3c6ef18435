//! Rising lists of values.

ghost use Rattle.std.specs.Prelude.{◌≡◌, ◌∷◌, [], false, true, IfOk, OnOk};
ghost use Rattle.std.specs.List.{list_any};
ghost use Rattle.gr_event.specs.Event.{same_value};
ghost use Rattle.gr_event.specs.declared.value.Value.TheVariants.{Bool as Truth, Text as TextValue};
ghost use Rattle.gr_cover.specs.Candidates.{value_cmp, inserted, is_integer};

use gr_event::{Memory, Text, Value};
use std::alloc::Global;
use std::cmp::Ordering;
use std::marker::Model;

/// A list of values, seen as it is.
#[derive(Drop)]
pub(crate) struct Values {
    values: Vec<Value>,
}

impl Model for Values {
    ghost use Rattle.std.specs.Prelude.{List};
    ghost use Rattle.gr_event.specs.declared.value.Value.{Value as AValue};

    ghost Value = { List AValue };

    ghost view = { λ v. v.values.items };
}

impl Values {
    /// The truth values, false first.
    pub(crate) fn truths(alloc: Global) -> Result<Values, Memory>
        ensures { IfOk result (λ v. v ≡ Truth false ∷ Truth true ∷ []) }
    {
        let mut values = Vec::new(alloc);
        values.push(Value::Bool(false))?;
        values.push(Value::Bool(true))?;
        Ok(Values { values })
    }

    /// Puts a value into its place in the rising list, unless it stands there.
    pub(crate) fn insert(&mut self, value: Value) -> Result<(), Memory>
        ensures { OnOk result (self.new ≡ inserted value_cmp value self.old) }
    {
        insert_value(&mut self.values, value)
    }

    /// Its values.
    pub(crate) fn as_slice(&self) -> &[Value]
        ensures { result.now ≡ self.now }
    {
        &self.values
    }
}

/// Whether there is an integer.
pub(crate) fn has_integer(values: &[Value]) -> bool
    ensures { result ≡ list_any is_integer values.now }
{
    for value in values {
        if matches!(value, Value::Int(_)) {
            return true;
        }
    }
    false
}

/// Whether the text is one of them.
pub(crate) fn has_text(values: &[Value], text: &Text) -> bool
    ensures { result ≡ list_any (same_value (TextValue text.now)) values.now }
{
    for value in values {
        if is_text(value, text) {
            return true;
        }
    }
    false
}

/// Whether a value is the text.
fn is_text(value: &Value, text: &Text) -> bool
    ensures { result ≡ same_value (TextValue text.now) value.now }
{
    match value {
        Value::Text(other) => text.same(other),
        Value::Int(_) | Value::Bool(_) => false,
    }
}

/// Puts a value into its place in a rising list, unless it stands there.
fn insert_value(values: &mut Vec<Value>, value: Value) -> Result<(), Memory>
    ensures { OnOk result (values.new.items ≡ inserted value_cmp value values.old.items) }
{
    for i in 0..values.len() {
        match order(&value, &values[i]) {
            Ordering::Less => {
                values.insert(i, value)?;
                return Ok(());
            }
            Ordering::Equal => return Ok(()),
            Ordering::Greater => {}
        }
    }
    values.push(value)?;
    Ok(())
}

/// Truth values before integers before texts, each in their own order.
fn order(left: &Value, right: &Value) -> Ordering
    ensures { result ≡ value_cmp left.now right.now }
{
    match left {
        Value::Bool(a) => match right {
            Value::Bool(b) => a.cmp(b),
            Value::Int(_) | Value::Text(_) => Ordering::Less,
        },
        Value::Int(a) => match right {
            Value::Bool(_) => Ordering::Greater,
            Value::Int(b) => a.cmp(b),
            Value::Text(_) => Ordering::Less,
        },
        Value::Text(a) => match right {
            Value::Bool(_) | Value::Int(_) => Ordering::Greater,
            Value::Text(b) => a.as_slice().cmp(b.as_slice()),
        },
    }
}
