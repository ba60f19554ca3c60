//! Texts as they are printed.

use crate::calls::is_answered;
use std::alloc::Global;
use std::test::Fail;

// Each production, as it may be written and as it is printed.
const PRODUCTIONS: &[(&'static str, &'static str)] = &[
    ("scalarset A 0..03;", "scalarset A 0 .. 3 ;\n"),
    (
        "ordset O undefined;scalarset S undefined;",
        "ordset O undefined ;\nscalarset S undefined ;\n",
    ),
    (
        "typedef t array 0..1 of struct{a,b:boolean;c:{x,y};};",
        "typedef t array 0 .. 1 of struct { a , b : boolean ;\nc : { x , y } ;\n} ;\n",
    ),
    ("module m(a,b){}", "module m ( a , b ) { }\n"),
    (
        "module main(){output a,b:T;i:m(a,1);init(x):=0;next(x.y[0]):=~~x;}",
        "module main ( ) { output a , b : T ;\ni : m ( a , 1 ) ;\ninit ( x ) := 0 ;\nnext ( x . y [ 0 ] ) := ~ ~ x ;\n}\n",
    ),
    (
        "module main(){layer L:{if(a){x:=1;}else if(b)y:=0;}}",
        "module main ( ) { layer L : { if ( a ) { x := 1 ;\n} else if ( b ) y := 0 ;\n} }\n",
    ),
    (
        "module main(){switch(s){0,red:x:=1;default:x:=2;}}",
        "module main ( ) { switch ( s ) { 0 , red : x := 1 ;\ndefault : x := 2 ;\n} }\n",
    ),
    (
        "module main(){default x:=1;in for(i=00;i<=3;i=i+1)y[i]:=i;}",
        "module main ( ) { default x := 1 ;\nin for ( i = 0 ;\ni <= 3 ;\ni = i + 1 ) y [ i ] := i ;\n}\n",
    ),
    (
        "module main(){x:=(((a)));y:=(a->b)->c;z:=a->(b->c);w:=a<->(b<->c);}",
        "module main ( ) { x := a ;\ny := ( a -> b ) -> c ;\nz := a -> ( b -> c ) ;\nw := a <-> ( b <-> c ) ;\n}\n",
    ),
    (
        "module main(){x:=~(a&b);y:=(~a)&b;z:=((a&b))|c;w:=(a|b)&c;}",
        "module main ( ) { x := ~ ( a & b ) ;\ny := ~ a & b ;\nz := a & b | c ;\nw := ( a | b ) & c ;\n}\n",
    ),
    (
        "module main(){x:=(a?b:c)?(d?e:f):(g?h:i);}",
        "module main ( ) { x := ( a ? b : c ) ? d ? e : f : g ? h : i ;\n}\n",
    ),
    (
        "module main(){x:={1..2,a,{b}};y:={i:i in 0..3,i>1};z:=&[a[i]:i in T];}",
        "module main ( ) { x := { 1 .. 2 , a , { b } } ;\ny := { i : i in 0 .. 3 , i > 1 } ;\nz := & [ a [ i ] : i in T ] ;\n}\n",
    ),
    (
        "module main(){x:=(a+b-1)mod 4;y:=a+(b-1);z:=(a=b)~=c;w:=a in{1};}",
        "module main ( ) { x := a + b - 1 mod 4 ;\ny := a + ( b - 1 ) ;\nz := ( a = b ) ~= c ;\nw := a in { 1 } ;\n}\n",
    ),
    (
        "module main(){p[i][j]:assert G(a);forall(i in T)subcase q[i]of p for a=i,b.c[2]=i;}",
        "module main ( ) { p [ i ] [ j ] : assert G a ;\nforall ( i in T ) subcase q [ i ] of p for a = i , b . c [ 2 ] = i ;\n}\n",
    ),
    (
        "module main(){using q//L,(r.s[i]),v//free,t->{a,b},u->{} prove p,q//L;}",
        "module main ( ) { using q // L , ( r . s [ i ] ) , v // free , t -> { a , b } , u -> { } prove p , q // L ;\n}\n",
    ),
];

// Fails with the first text that is printed otherwise, or is printed again otherwise.
fn all_are_printed(alloc: Global, rows: &[(&'static str, &'static str)]) -> Result<(), Fail> {
    for (text, printed) in rows {
        for written in [text, printed] {
            if !is_answered(alloc, "print", written.as_bytes(), 0, printed)? {
                return Err(Fail::new(*written));
            }
        }
    }
    Ok(())
}

#[test]
fn what_is_printed_is_printed_again(rt: HostRuntime) -> Result<(), Fail> {
    all_are_printed(rt.alloc(), PRODUCTIONS)
}
