//! Sources whose images the tests run. Between them they use every form of rule and of term.

/// Each line is what a source declares, and its rule. Values of functions whose names begin with `e` or `h` are enumerators: that letter and the index.
pub(super) const SOURCES: &str = "\
domain D = 0 to 9 controlled x : D | x := cond ( ( x = 9 ) , 0 , min ( ( x + 1 ) , 9 ) )
domain U = 7 to 7 domain W = 0 to 65535 controlled u : U controlled w : W | skip
domain D = 0 to 9 controlled a : D controlled b : D controlled c : D | par a := b ; b := a ; if ( a < 5 ) then par c := 1 ; c := 2 end else c := 3 end end
domain D = 0 to 9 domain A = 0 to 2 controlled a : D controlled g ( A ) : D | par a := 1 ; a := 1 ; forall i in A do g ( 2 ) := g ( i ) end end
domain D = -2 to 3 controlled x : D controlled y : D controlled f ( D ) : D | par if ( x < 3 ) then x := ( x + 1 ) end ; if not ( y = ( 0 - 2 ) ) then y := ( y - 1 ) else y := 3 end ; forall i in D with ( i > ( 0 - 2 ) ) do f ( i ) := f ( ( i - 1 ) ) end end
domain Temp = 0 to 100 domain E = { e0 , e1 , e2 } domain H = { h0 , h1 } input t : Temp controlled e_mode : E output h_relay : H | if ( t < 40 ) then par e_mode := e1 ; h_relay := h1 end else if ( t > 60 ) then par e_mode := e0 ; h_relay := h0 end end end
domain A = 0 to 2 domain B = -1 to 1 domain C = 1 to 2 domain E = { e0 , e1 , e2 } controlled f ( A , E , B ) : B input i ( A ) : A | forall a in C with ( i ( a ) != a ) do forall b in B with ( b > f ( a , e1 , b ) ) do f ( i ( a ) , e2 , b ) := f ( a , e0 , max ( ( 0 - 1 ) , ( b - 1 ) ) ) end end
domain E = { e0 , e1 , e2 } domain H = { h0 , h1 , h2 } domain A = 1 to 3 controlled e_f ( H , E , A ) : E controlled h_c : H | par forall c in E do e_f ( h_c , c , 2 ) := e_f ( h2 , c , 1 ) end ; choose h in H with ( ( h != h_c ) and ( e_f ( h , e1 , 3 ) = e_f ( h_c , e1 , 3 ) ) ) do h_c := h end end
domain A = 0 to 2 domain E = { e0 , e1 , e2 } domain N = -3 to 3 static s ( E , A ) : N = [ -3 , 0 , 3 , 1 , -1 , 2 , -2 , 1 , 0 ] static e_next ( E ) : E = [ e1 , e2 , e0 ] static base : N = [ -2 ] controlled x : N controlled e_c : E controlled k : A | par x := max ( ( 0 - 3 ) , min ( 3 , ( s ( e_c , k ) - base ) ) ) ; e_c := e_next ( e_c ) ; k := cond ( ( k = 2 ) , 0 , ( k + 1 ) ) end
domain A = 0 to 2 domain B = -1 to 3 domain H = { h0 , h1 } static s ( H , A , B ) : B = [ -1 , 0 , 1 , 2 , 3 , 3 , 2 , 1 , 0 , -1 , 0 , 0 , 1 , 1 , 2 , 2 , 3 , 3 , -1 , -1 , 0 , 1 , 0 , 1 , 0 , 2 , 3 , 2 , 3 , 2 ] input a : A controlled b : B output h_o : H | par b := s ( h_o , a , b ) ; h_o := cond ( ( b >= 2 ) , h1 , h0 ) end
domain D = 0 to 4 controlled x : D controlled y : D | choose d in D with ( d > ( x + y ) ) do par x := d ; y := ( d - 1 ) end else y := cond ( ( y > 0 ) , ( y - 1 ) , 4 ) end
domain D = 0 to 4 controlled x : D controlled y : D | par choose e in D with ( e > x ) do x := e end ; choose e in D with ( ( e = 1 ) or ( e = x ) ) do y := e else y := 2 end end
domain A = 1 to 3 controlled f ( A ) : A | forall i in A do choose j in A with ( j > f ( i ) ) do f ( i ) := j else f ( i ) := 1 end end
domain D = 0 to 9 controlled x : D controlled y : D controlled f ( D ) : D | let v = ( x + y ) in let w = min ( v , 9 ) in par x := w ; f ( w ) := max ( 0 , ( v - 9 ) ) ; y := f ( f ( y ) ) end end end
domain B = 0 to 1 domain S = 0 to 2 domain E = { e0 , e1 } controlled l : B controlled le : B controlled g : B controlled ge : B controlled q : B controlled n : B controlled s : S controlled e_s : E | par l := cond ( ( s < 1 ) , 1 , 0 ) ; le := cond ( ( s <= 1 ) , 1 , 0 ) ; g := cond ( ( s > 1 ) , 1 , 0 ) ; ge := cond ( ( s >= 1 ) , 1 , 0 ) ; q := cond ( ( e_s = e1 ) , 1 , 0 ) ; n := cond ( ( s != 1 ) , 1 , 0 ) ; s := min ( 2 , ( s + 1 ) ) ; e_s := cond ( ( ( l = 1 ) or not ( g = le ) ) , e0 , e1 ) end
domain P = -2 to 2 domain N = -100 to 27 input i ( P ) : N output o ( P ) : N controlled k : P | par forall p in P do o ( p ) := i ( p ) end ; if ( i ( k ) < o ( 0 ) ) then k := cond ( ( k = 2 ) , ( 0 - 2 ) , ( k + 1 ) ) end end
domain L = 1000000 to 1048576 domain M = -1048576 to -983041 controlled l : L controlled m : M input j : L | par l := max ( 1000000 , min ( ( ( l - m ) - 1000000 ) , 1048576 ) ) ; m := min ( ( 0 - 983041 ) , max ( ( 0 - j ) , ( 0 - 1048576 ) ) ) end
domain C = 0 to 2 domain I = 1 to 2 input c ( C , C ) : C output d ( C ) : C | forall i in I do choose j in C with ( ( c ( i , j ) = 0 ) and not ( i = j ) ) do d ( j ) := i else let k = c ( i , i ) in if ( k > d ( i ) ) then d ( i ) := k end end end end";

/// Each line is what a source declares, its rule, the words of RAM at the head, and the state after a round.
pub(super) const STEPS: &str = "\
domain D = 0 to 9 controlled a : D controlled b : D | par a := b ; b := a end | 3 8 | a=8 b=3
domain D = 0 to 9 controlled a : D controlled b : D | par a := b ; b := a end | 8 3 | a=3 b=8
domain D = 0 to 9 controlled a : D controlled b : D | par a := 1 ; a := 2 ; b := 3 end | 0 0 | a=0 b=0
domain D = 0 to 9 controlled a : D | par a := 1 ; a := 1 end | 0 | a=1
domain D = 0 to 9 controlled x : D | choose e in D with ( e > 20 ) do x := e end | 0 | x=0
domain D = 0 to 9 controlled x : D | choose e in D with ( ( e = 3 ) or ( e = 7 ) ) do x := e end | 0 | x=3
domain D = 0 to 9 controlled x : D | x := cond ( ( x = 9 ) , 0 , min ( ( x + 1 ) , 9 ) ) | ffffffff | x=6
domain A = 0 to 3 domain E = 0 to 4 controlled f ( A ) : E | skip | 4 5 7 ffffffff | f(0)=4 f(1)=0 f(2)=2 f(3)=2
domain U = 7 to 7 domain W = 0 to 65535 controlled u : U controlled w : W | skip | ffffffff ffffffff | u=7 w=65535
domain U = 7 to 7 domain W = 0 to 65535 controlled u : U controlled w : W | skip | ffffffff 10000 | u=7 w=0";
