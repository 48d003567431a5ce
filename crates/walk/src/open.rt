// Both frames tested: what every call that reads through an index begins with.
ghost use Rattle.walk.specs.Opens.{Opens};

use crate::Indexed;
use index::Index;
use refusal::Refusal;
use tray::Tray;

impl<'a> Indexed<'a> {
    // The tray and the index of any bytes where both frames fit, and else refusal 1, or 4.
    #[inline(always)]
    pub fn open(t: &'a [u8], x: &'a [u8]) -> Result<Indexed<'a>, Refusal>
        ensures { Opens t.now x.now result }
    {
        let tray = Tray::open(t)?;
        let index = Index::open(x, tray.runs)?;
        Ok(Indexed { tray, index })
    }
}
