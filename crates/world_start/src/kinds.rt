// Kinds of values, and what a place of each kind holds at first.
ghost use Rattle.std.specs.Prelude.{◌≡◌};
ghost use Rattle.machine_model.specs.Kinds.{first_value as first_value_of, own_kind, is_null as is_null_value, is_args as is_args_kind};

use built_in_classes::{PRINT_STREAM, STRING};
use vm_model::{Kind, Value};

/// What a field or a static of this kind holds at first (JVMS SE 8 §2.3 and §2.4).
pub fn first_value(kind: Kind) -> Value
    ensures { result ≡ first_value_of kind }
{
    match kind {
        Kind::Int => Value::Int(0),
        Kind::Null => Value::Null,
        Kind::Ref(_) => Value::Null,
        Kind::Arr => Value::Null,
        Kind::Args => Value::Null,
    }
}

/// The kind of a value by itself: that of its class, where it has one.
pub fn kind_of(value: Value) -> Kind
    ensures { result ≡ own_kind value }
{
    match value {
        Value::Int(_) => Kind::Int,
        Value::Null => Kind::Null,
        Value::Obj { class, .. } => Kind::Ref(class),
        Value::Arr { .. } => Kind::Arr,
        Value::Text(_) => Kind::Ref(STRING),
        Value::Stream => Kind::Ref(PRINT_STREAM),
    }
}

/// Whether this is null.
pub fn is_null(value: Value) -> bool
    ensures { result ≡ is_null_value value }
{
    match value {
        Value::Int(_) => false,
        Value::Null => true,
        Value::Obj { .. } => false,
        Value::Arr { .. } => false,
        Value::Text(_) => false,
        Value::Stream => false,
    }
}

/// Whether this is the kind of the argument of `main`.
pub fn is_args(kind: Kind) -> bool
    ensures { result ≡ is_args_kind kind }
{
    match kind {
        Kind::Int => false,
        Kind::Null => false,
        Kind::Ref(_) => false,
        Kind::Arr => false,
        Kind::Args => true,
    }
}
