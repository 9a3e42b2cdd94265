// Reads one line of an inquiry: a directory of the path, or the subject that asks.
#![tactic(auto)]

ghost use Rattle.std.specs.Prelude.{◌≡◌, replicate};
ghost use Rattle.inquiry.specs.Fields.{fields, fields_if};
ghost use Rattle.inquiry.specs.Lines.{directory_of, is_who, line_of, subject_of, with_groups};
ghost use Rattle.inquiry.specs.Written.{ReadsBack};

mod line;
mod number;

use groups::{GroupSet, NO_GROUPS, insert};
pub use line::{Asker, BadLine, Description, Line};
use number::number;

// The directory that the three fields describe.
fn directory(owner: &[u8], group: &[u8], mode: &[u8]) -> Result<Line, BadLine>
    ensures { result ≡ directory_of owner.now group.now mode.now }
{
    let owner = number(owner, 10, 65535).ok_or(BadLine::Owner)?;
    let group = number(group, 10, 255).ok_or(BadLine::Group)? as u8;
    let mode = number(mode, 8, 0o7777).ok_or(BadLine::Mode)?;
    Ok(Line::Directory(Description { owner, group, mode }))
}

// The set of the groups that are named with commas between, if each is one.
fn group_set(list: &[u8]) -> Option<GroupSet>
    ensures { result ≡ with_groups (replicate 32 0) (fields 44 list.now) }
{
    let mut set = NO_GROUPS;
    for field in list.split(|byte| *byte == b',') {
        insert(&mut set, number(field, 10, 255)? as u8);
    }
    Some(set)
}

// The subject that the field for the user, and the one for its groups if there is one, describe.
fn subject(user: &[u8], groups: Option<&[u8]>) -> Result<Line, BadLine>
    ensures { result ≡ subject_of user.now (fields_if 44 groups.entry) }
{
    let user = number(user, 10, 65535).ok_or(BadLine::User)?;
    let groups = groups
        .map_or(Some(NO_GROUPS), group_set)
        .ok_or(BadLine::Groups)?;
    Ok(Line::Subject(Asker { user, groups }))
}

// Whether the field is the word that begins a subject's line.
fn is_who(field: &[u8]) -> bool
    ensures { result ≡ is_who field.now }
{
    field == b"who".as_slice()
}

// What the line says, or what is wrong with it. No `TryFrom`, so that each of the two promises is a clause.
pub fn read_line(text: &[u8]) -> Result<Line, BadLine>
    ensures line { result ≡ line_of text.now }
    ensures written { ReadsBack text.now result }
{
    let mut fields = text.split(|byte| *byte == b' ');
    match (fields.next(), fields.next(), fields.next(), fields.next()) {
        (Some(first), Some(user), groups, None) if is_who(first) => subject(user, groups),
        (Some(owner), Some(group), Some(mode), None) => directory(owner, group, mode),
        _ => Err(BadLine::Shape),
    }
}

#[cfg(test)]
mod tests {
    use super::*;

    fn directory(owner: u16, group: u8, mode: u16) -> Result<Line, BadLine> {
        Ok(Line::Directory(Description { owner, group, mode }))
    }

    #[test]
    fn good_lines(rt: HostRuntime) {
        let mut groups = NO_GROUPS;
        assert_eq!(rt; read_line(b"0 0 755"), directory(0, 0, 0o755));
        assert_eq!(rt; read_line(b"65535 255 7777"), directory(65535, 255, 0o7777));
        assert_eq!(rt; read_line(b"01000 007 0000700"), directory(1000, 7, 0o700));
        assert_eq!(rt;
            read_line(b"who 1000"),
            Ok(Line::Subject(Asker { user: 1000, groups }))
        );
        insert(&mut groups, 27);
        insert(&mut groups, 100);
        assert_eq!(rt;
            read_line(b"who 7 100,27,100"),
            Ok(Line::Subject(Asker { user: 7, groups }))
        );
    }

    #[test]
    fn bad_lines(rt: HostRuntime) {
        let bad: [(&[u8], BadLine); 15] = [
            (b"", BadLine::Shape),
            (b"who", BadLine::Shape),
            (b"1000 100", BadLine::Shape),
            (b"1000 100 755 ", BadLine::Shape),
            (b"who 1 2 3", BadLine::Shape),
            (b"65536 256 8", BadLine::Owner),
            (b"1000 256 8", BadLine::Group),
            (b"1000  755", BadLine::Group),
            (b"1000 100 758", BadLine::Mode),
            (b"1000 100 10000", BadLine::Mode),
            (b"who ", BadLine::User),
            (b"who +1 300", BadLine::User),
            (b"who 1 ", BadLine::Groups),
            (b"who 1 2,,3", BadLine::Groups),
            (b"who 1 256", BadLine::Groups),
        ];
        for (text, wrong) in bad {
            assert_eq!(rt; read_line(text), Err(wrong));
        }
    }
}
