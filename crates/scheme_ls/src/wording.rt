//! The text that the program says by itself.

/// What is printed where the words aren't a command.
pub const USAGE: &str = "usage: scheme_ls serve
       scheme_ls serve --ahead
       scheme_ls replay FILE
       scheme_ls arrows
       scheme_ls check FILE...
       scheme_ls rename FILE LINE COL NAME
       scheme_ls selfrun N
";
