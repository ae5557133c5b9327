// What taking updates comes to, over any host: each the contract of a function.
ghost use Rattle.document.specs.Taking.{TakingTwiceIsTakingOnce, EitherOrderGivesOneDocument, ExchangesJoin};

use crate::host::DocumentHost;

// An update that comes again changes nothing.
pub fn taking_twice_is_taking_once<H: DocumentHost>()
    ensures { TakingTwiceIsTakingOnce H.kind H.LIMIT }
{}

// Two updates that are accepted in either order give one document.
pub fn either_order_gives_one_document<H: DocumentHost>()
    ensures { EitherOrderGivesOneDocument H.kind H.LIMIT }
{}

// An update that was made for one's own vector, even an old one, is accepted exactly where the join fits, and gives it.
pub fn exchanges_join<H: DocumentHost>()
    ensures { ExchangesJoin H.kind H.LIMIT }
{}
