//! What a call is answered.

ghost use Rattle.std.specs.Prelude.{◌≡◌};
ghost use Rattle.pm_ipi.specs.Responses.{success, refusal, response_words, used_by};

use crate::status::{NODE_USED, SUCCESS};
use pm_base::NodeId;

/// What a call comes to: its status, and the words that it tells (UG1200, responses of the calls).
/// Words that a call doesn't tell are 0.
#[derive(Clone, Copy, Debug, PartialEq, Eq)]
pub struct Response {
    pub status: u32,
    pub words: [u32; 3],
}

impl Response {
    /// The call was done, and tells these words.
    pub fn success(words: [u32; 3]) -> Response
        ensures { result ≡ success words }
    {
        Response {
            status: SUCCESS,
            words,
        }
    }

    /// The call was refused, and tells nothing.
    pub fn refusal(status: u32) -> Response
        ensures { result ≡ refusal status }
    {
        Response {
            status,
            words: [0; 3],
        }
    }

    /// The call was refused since a master uses the slave, which it names.
    pub fn used_by(master: NodeId) -> Response
        ensures { result ≡ used_by master }
    {
        Response {
            status: NODE_USED,
            words: [master.0, 0, 0],
        }
    }
}

/// The words of a reply: the status of the response, and then the words that it tells.
pub fn respond(response: &Response) -> [u32; 4]
    ensures { result ≡ response_words response.now }
{
    let words = response.words;
    [response.status, words[0], words[1], words[2]]
}
