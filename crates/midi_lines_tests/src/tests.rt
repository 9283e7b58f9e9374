// Lines that no input of a command leaves. The rows of `worked_rows` tell of a line of each kind.
mod endpoint;
mod facts;
mod numbers;
mod steps;
mod texts;
