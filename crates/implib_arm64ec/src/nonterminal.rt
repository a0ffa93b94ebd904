//! The parts of a mangled name.

/// A part of a mangled name that is still to come.
#[derive(Clone, Copy)]
pub enum Nonterminal {
    /// The innermost name.
    Leaf,
    /// A leaf behind its `?`.
    LeafMark,
    /// A leaf behind `?_`.
    LeafUnderscore,
    /// A leaf behind `?__`.
    LeafUnderscores,
    /// A plain name with its `@`, whatever it begins with.
    Name,
    /// The rest of a plain name, with its `@`.
    NameRest,
    /// The scopes around a name, from the inside, with the `@` that ends them.
    Scopes,
    /// A scope behind its `?`.
    ScopeMark,
    /// The rest of a number in letters, with its `@`.
    Letters,
    /// A `?`.
    Mark,
    /// An `@`.
    At,
    /// The arguments of a template, with the `@` that ends them.
    Arguments,
    /// An argument of a template.
    Argument,
    /// An argument behind `$`.
    ArgumentDollar,
    /// An argument behind `$$`.
    ArgumentDollars,
    /// The `V` of a pack `$$$V`.
    PackEnd,
    /// A type.
    AnyType,
    /// A type behind `$`.
    TypeDollar,
    /// A type behind `$$`.
    TypeDollars,
    /// A type behind `_`.
    TypeUnderscore,
    /// Any byte.
    AnyByte,
    /// An array behind its `Y`.
    Array,
    /// A type of functions behind `$$A`.
    FunctionType,
    /// Qualifiers of a member function, and those of its object.
    Qualifiers,
    /// Whether a value is constant or volatile, and for a member its class.
    Qualifier,
    /// What a pointer or reference leads to.
    Pointee,
    /// The same behind a qualifier of the pointer.
    PointeeRest,
    /// The qualified name of a class.
    ClassName,
    /// Such names, with the `@` that ends them.
    ClassNames,
    /// A number.
    Number,
    /// A number without a sign.
    Unsigned,
    /// A function's convention, result and parameters.
    Signature,
    /// The type of a function's result; `@` for none.
    ReturnType,
    /// A function's parameters, with what ends them.
    Parameters,
    /// The same, after the first.
    ParametersRest,
    /// The end of a signature.
    SignatureEnd,
    /// The `E` of the end `_E`.
    NoExcept,
    /// A whole mangled name.
    MangledName,
    /// What the qualified name is of: a variable, a table, a function.
    Encoding,
    /// A variable's qualifiers.
    Storage,
    /// The same behind `E`.
    StorageRest,
}
