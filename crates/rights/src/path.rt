// Flattening a path.
ghost use Rattle.std.specs.Prelude.{◌≡◌, ◌<◌, length, MatchResult};
ghost use Rattle.rights.specs.Subjects.{Who};
ghost use Rattle.rights.specs.Paths.{flattened, may_all};

use crate::directory::Directory;
use crate::form::{Form, TooDeep};

// The requirement of a path of at most 16 directories, root first.
pub fn flatten<F: Form>(path: &[Directory]) -> Result<F, TooDeep>
    ensures form { result ≡ flattened F.Form.meaning path.now }
    ensures admits { MatchResult result (λ f. (w : Who) → F.Form.meaning.admits f w ≡ may_all w path.now) (λ _. 16 < length path.now) }
{
    let mut form = F::everyone();
    for directory in path {
        form.narrow(directory)?;
    }
    Ok(form)
}
