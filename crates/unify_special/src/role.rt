use bam_code::arg_type::ArgType;
use bam_code::result_type::ResultType;
use bam_code::signature::Signature;

/// What a variable of a clause is to the procedure.
#[derive(Clone, Copy, Debug, PartialEq, Eq)]
pub enum Role {
    /// The argument of this number, which has a value.
    Argument(u8),
    /// The argument of this number, which is a result of this type.
    Result(u8, ResultType),
    /// The argument that is a number of choices.
    Barrier,
    /// No argument of the head.
    Local,
}

/// The role of a variable. Those of the head have the numbers of their arguments.
pub fn role_of(signature: &Signature, variable: u32) -> Role {
    let Ok(number) = u8::try_from(variable) else {
        return Role::Local;
    };
    match signature.args.as_slice().get(number as usize) {
        None => Role::Local,
        Some(ArgType::Bar) => Role::Barrier,
        Some(ArgType::Out) => result_role(signature, number),
        Some(_) => Role::Argument(number),
    }
}

fn result_role(signature: &Signature, number: u8) -> Role {
    match signature.results.as_slice().get(number as usize) {
        Some(holds) => Role::Result(number, *holds),
        None => Role::Local,
    }
}

/// The argument whose term a variable is, which marks the places where it stands.
pub fn mark(signature: &Signature, variable: u32) -> Option<u8> {
    match role_of(signature, variable) {
        Role::Argument(number) => Some(number),
        _ => None,
    }
}
