//! The prelude: the words of the language that are defined in the language itself. It is file 0 of every program.
#![tactic(auto)]

ghost use Rattle.std.specs.Prelude.{◌≡◌};
ghost use Rattle.fac_prelude.specs.PreludeText.{prelude_text};

/// The text of the prelude, as a file has it.
pub const PRELUDE: &str = "\
IN: kernel
: 2dip ( x y quot -- x y ) swap [ dip ] dip ; inline
: 3dip ( x y z quot -- x y z ) swap [ 2dip ] dip ; inline
: keep ( x quot -- x ) over [ call ] dip ; inline
: 2keep ( x y quot -- x y ) [ 2dup ] dip 2dip ; inline
: bi ( x p q -- ) [ keep ] dip call ; inline
: bi* ( x y p q -- ) [ dip ] dip call ; inline
: bi@ ( x y quot -- ) dup bi* ; inline
: tri ( x p q r -- ) [ [ keep ] dip keep ] dip call ; inline
: when ( ? true -- ) swap [ call ] [ drop ] if ; inline
: unless ( ? false -- ) swap [ drop ] [ call ] if ; inline
: if* ( ? true false -- ) pick [ drop call ] [ 2nip call ] if ; inline
: 2curry ( x y quot -- curry ) curry curry ; inline
: prepose ( p q -- compose ) swap compose ; inline
: with ( param obj quot -- obj curry ) swapd [ swapd call ] 2curry ; inline
: loop ( ..a pred: ( ..a -- ..a ? ) -- ..a )
    dup dip swap [ loop ] [ drop ] if ; inline recursive
: while ( ..a pred: ( ..a -- ..b ? ) body: ( ..b -- ..a ) -- ..b )
    over 2dip rot [ dup 2dip while ] [ 2drop ] if ; inline recursive
: until ( ..a pred: ( ..a -- ..b ? ) body: ( ..b -- ..a ) -- ..b )
    [ [ not ] compose ] dip while ; inline

IN: math
USING: kernel ;
: sq ( x -- y ) dup * ;
: neg ( x -- y ) 0 swap - ;
: abs ( x -- y ) dup 0 < [ neg ] when ;
: min ( x y -- z ) 2dup < [ drop ] [ nip ] if ;
: max ( x y -- z ) 2dup > [ drop ] [ nip ] if ;
: zero? ( x -- ? ) 0 = ;
: even? ( n -- ? ) 1 bitand 0 = ;
: odd? ( n -- ? ) even? not ;
<PRIVATE
: (each-integer) ( ..a i n quot: ( ..a i -- ..a ) -- ..a )
    pick pick < [ pick over curry 3dip [ 1 + ] 2dip (each-integer) ]
    [ 3drop ] if ; inline recursive
PRIVATE>
: times ( ..a n quot: ( ..a -- ..a ) -- ..a )
    [ drop ] prepose 0 -rot (each-integer) ; inline

IN: sequences
USING: math math.private arrays ;
: first ( seq -- elt ) 0 swap nth ;
: second ( seq -- elt ) 1 swap nth ;
: last ( seq -- elt ) dup length 1 - swap nth ;
: empty? ( seq -- ? ) length 0 = ;
: each ( ..a seq quot: ( ..a x -- ..a ) -- ..a )
    [ dup length swap [ nth ] curry ] dip compose 0 -rot (each-integer) ; inline
: map ( ..a seq quot: ( ..a x -- ..a y ) -- ..a newseq )
    over length f <array> [
        [ [ dup length swap [ nth ] curry ] dip compose [ keep ] curry ] dip
        [ set-nth ] curry compose 0 -rot (each-integer)
    ] keep ; inline
: filter ( ..a seq quot: ( ..a x -- ..a ? ) -- ..a newseq )
    over [ map ] dip (select) ; inline
: reduce ( ..a seq id quot: ( ..a prev x -- ..a next ) -- ..a result )
    swapd each ; inline
: sum ( seq -- n ) 0 [ + ] reduce ;
";

/// The text of the prelude.
pub fn text() -> &'static str
    ensures { result.now ≡ prelude_text }
{
    PRELUDE
}
