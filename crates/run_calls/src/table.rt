//! Built-in methods and constructors by their numbers, and classes that the language knows by itself.

ghost use Rattle.std.specs.Prelude.{◌≡◌, slice_get};
ghost use Rattle.core_meaning.specs.BuiltIns as spec;

use core_meaning::BuiltIn;

/// The class Error.
pub(crate) const ERROR: u32 = 6;

pub(crate) const NULL_POINTER_EXCEPTION: u32 = 9;

pub(crate) const STRING_INDEX_EXCEPTION: u32 = 15;

pub(crate) const EXCEPTION_IN_INITIALIZER_ERROR: u32 = 17;

pub(crate) const NO_CLASS_DEF_FOUND_ERROR: u32 = 18;

/// The methods that the language calls by itself (JLS 15.18.1.1), in the class that declares them.
pub(crate) const TO_STRING: u32 = 1;

pub(crate) const HASH_CODE: u32 = 3;

pub(crate) const GET_MESSAGE: u32 = 29;

/// Of Object, String, PrintStream and Throwable; and then the constructors of the fourteen classes below Throwable.
const MEMBERS: [BuiltIn; 59] = [
    BuiltIn::NewObject,
    BuiltIn::ObjectToString,
    BuiltIn::ObjectEquals,
    BuiltIn::ObjectHashCode,
    BuiltIn::Length,
    BuiltIn::CharAt,
    BuiltIn::SubstringFrom,
    BuiltIn::SubstringBetween,
    BuiltIn::CompareTo,
    BuiltIn::StringEquals,
    BuiltIn::StringHashCode,
    BuiltIn::StringToString,
    BuiltIn::Print { line: false },
    BuiltIn::Print { line: false },
    BuiltIn::Print { line: false },
    BuiltIn::Print { line: false },
    BuiltIn::PrintChars { line: false },
    BuiltIn::Print { line: false },
    BuiltIn::Print { line: false },
    BuiltIn::Print { line: true },
    BuiltIn::Print { line: true },
    BuiltIn::Print { line: true },
    BuiltIn::Print { line: true },
    BuiltIn::PrintChars { line: true },
    BuiltIn::Print { line: true },
    BuiltIn::Print { line: true },
    BuiltIn::PrintLine,
    BuiltIn::NewThrowable { message: false },
    BuiltIn::NewThrowable { message: true },
    BuiltIn::GetMessage,
    BuiltIn::ThrowableToString,
    BuiltIn::NewThrowable { message: false },
    BuiltIn::NewThrowable { message: true },
    BuiltIn::NewThrowable { message: false },
    BuiltIn::NewThrowable { message: true },
    BuiltIn::NewThrowable { message: false },
    BuiltIn::NewThrowable { message: true },
    BuiltIn::NewThrowable { message: false },
    BuiltIn::NewThrowable { message: true },
    BuiltIn::NewThrowable { message: false },
    BuiltIn::NewThrowable { message: true },
    BuiltIn::NewThrowable { message: false },
    BuiltIn::NewThrowable { message: true },
    BuiltIn::NewThrowable { message: false },
    BuiltIn::NewThrowable { message: true },
    BuiltIn::NewThrowable { message: false },
    BuiltIn::NewThrowable { message: true },
    BuiltIn::NewThrowable { message: false },
    BuiltIn::NewThrowable { message: true },
    BuiltIn::NewThrowable { message: false },
    BuiltIn::NewThrowable { message: true },
    BuiltIn::NewThrowable { message: false },
    BuiltIn::NewThrowable { message: true },
    BuiltIn::NewThrowable { message: false },
    BuiltIn::NewThrowable { message: true },
    BuiltIn::NewThrowable { message: false },
    BuiltIn::NewThrowable { message: true },
    BuiltIn::NewThrowable { message: false },
    BuiltIn::NewThrowable { message: true },
];

fn member_at(members: &[BuiltIn], method: u32) -> Option<BuiltIn>
    ensures { result ≡ slice_get members.now method }
{
    members.get(method as usize).copied()
}

/// What a method or constructor is, where it is built in.
pub(crate) fn built_in(method: u32) -> Option<BuiltIn>
    ensures { result ≡ spec.built_in method }
{
    member_at(&MEMBERS, method)
}
