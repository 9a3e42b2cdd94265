// The class in which a subject meets a file.
#[derive(Clone, Copy, PartialEq, Eq, Debug)]
pub enum Class {
    Owner,
    Group,
    Others,
}
